// What holds of the texts of transducers.
ghost use Rattle.tib_transducer_file.specs.Laws.{GivesFaults, TextsHaveNone, FirstIsOne, IsSomeText, TextOrFault, TextsMeanOne, TextHasOne};
ghost use Rattle.tib_transducer_file.specs.Reading.{transducer_in};
ghost use Rattle.tib_transducer_file.specs.Faults.{IsFirstFault};

/// The function that says what a file holds gives a fault exactly where this is the first of the
/// file.
pub fn transducer_faults_are_read()
    ensures { GivesFaults transducer_in IsFirstFault }
{}

/// Bytes with a fault are the text of no transducer, and they have one first fault.
pub fn transducer_faults_are_one()
    ensures none { TextsHaveNone }
    ensures one { FirstIsOne IsFirstFault }
{}

/// Each file is the text of a transducer, over some table of labels, or it has a first fault.
pub fn transducer_files_are_texts_or_faulty()
    ensures { TextOrFault IsSomeText IsFirstFault }
{}

/// The transducers of one text, each over a table of labels of its own, differ in the numbers of
/// labels alone.
pub fn one_transducer_by_text()
    ensures { TextsMeanOne }
{}

/// Bytes are the text of at most one transducer over one table of distinct labels.
pub fn text_has_one_transducer()
    ensures { TextHasOne }
{}

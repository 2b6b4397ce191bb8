// What holds of the texts of tree-to-string transducers.
ghost use Rattle.tib_transducer_file.specs.Laws.{GivesFaults, FirstIsOne, TextOrFault};
ghost use Rattle.tib_strings.specs.TransducerLaws.{TextsHaveNone, IsSomeText, TextsMeanOne, TextHasOne};
ghost use Rattle.tib_strings.specs.TransducerReading.{transducer_in};
ghost use Rattle.tib_strings.specs.FileFaults.{IsFirstFault};

/// The function that says what a file holds gives a fault exactly where this is the first of the
/// file.
pub fn string_transducer_faults_are_read()
    ensures { GivesFaults transducer_in IsFirstFault }
{}

/// Bytes with a fault are the text of no tree-to-string transducer, and they have one first fault.
pub fn string_transducer_faults_are_one()
    ensures none { TextsHaveNone }
    ensures one { FirstIsOne IsFirstFault }
{}

/// Each file is the text of a tree-to-string transducer, over some table of distinct labels, or it
/// has a first fault.
pub fn string_transducer_files_are_texts_or_faulty()
    ensures { TextOrFault IsSomeText IsFirstFault }
{}

/// The transducers of one text, each over a table of labels of its own, differ in the numbers of
/// labels alone.
pub fn one_string_transducer_by_text()
    ensures { TextsMeanOne }
{}

/// Bytes are the text of at most one tree-to-string transducer over one table of distinct labels.
pub fn text_has_one_string_transducer()
    ensures { TextHasOne }
{}

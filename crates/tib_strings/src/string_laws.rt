// What holds of the texts of strings.
ghost use Rattle.tib_strings.specs.StringLaws.{GivesStringFaults, TextsHaveNone, FirstIsOne, TextOrFault, TextsMeanOne, TextHasOne};

/// The function that says what a string file holds gives a fault exactly where this is the first of
/// the file.
pub fn string_faults_are_read()
    ensures { GivesStringFaults }
{}

/// Bytes with a fault are the text of no string, and they have one first fault.
pub fn string_faults_are_one()
    ensures none { TextsHaveNone }
    ensures one { FirstIsOne }
{}

/// Each file is the text of a string, over some table of distinct labels, or it has a first fault.
pub fn string_files_are_texts_or_faulty()
    ensures { TextOrFault }
{}

/// The strings of one text, each over a table of labels of its own, have the same words.
pub fn one_string_by_text()
    ensures { TextsMeanOne }
{}

/// Bytes are the text of at most one string over one table of distinct labels.
pub fn text_has_one_string()
    ensures { TextHasOne }
{}

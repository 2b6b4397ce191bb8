// What holds of the printed text of transducers.
ghost use Rattle.tib_transducer_file.specs.ByName.{OrderedPrintsBack, PrintsBack, PrintsRules, ReadTransducersPrintBack};

/// Each line that is printed of a rule spells a rule, which is this very one. It needs labels
/// without line feeds, variables with numbers of nine digits at most, and costs of 0 where nothing
/// is weighed.
pub fn printed_rules_are_read()
    ensures { PrintsRules }
{}

/// What is printed of a transducer is the text of the same transducer, states by their names, and
/// reads back where no side has more than 10,000 nodes. Each state but the start must occur in a
/// rule, and each rule must be one that can be printed.
pub fn printed_transducers_are_read()
    ensures { PrintsBack }
{}

/// What is printed of a transducer whose states come in the order of their numbers is the text of
/// this very transducer: its states keep their numbers.
pub fn ordered_transducers_are_read()
    ensures { OrderedPrintsBack }
{}

/// What is printed of a transducer that was read is the text of this very transducer.
pub fn read_transducers_are_printed_back()
    ensures { ReadTransducersPrintBack }
{}

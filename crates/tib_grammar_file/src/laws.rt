// What holds of the text of grammars.
ghost use Rattle.tib_cost.specs.declared.Scale.{Scale};
ghost use Rattle.std.specs.Prelude.{◌≡◌, ◌≤◌, ℕ, List, Bool, Option, length};
ghost use Rattle.tib_lex.specs.Lists.{Along, Ascends, Distinct};
ghost use Rattle.tib_tree.specs.Grows.{Grows};
ghost use Rattle.tib_grammar.specs.GrammarOf.{GrammarOf};
ghost use Rattle.tib_grammar.specs.declared.Rule.{Rule};
ghost use Rattle.tib_grammar_file.specs.ByName.{HasText, PrintsBack};
ghost use Rattle.tib_tree.specs.Printed.{tree_text};
ghost use Rattle.tib_tree.specs.Trees.{Tree};
ghost use Rattle.tib_tree.specs.TreesText.{TreesText};
ghost use Rattle.tib_grammar.specs.Series.{IsSeries};
ghost use Rattle.tib_grammar_file.specs.ByText.{AgreeByText, AreOneTree};
ghost use Rattle.tib_grammar_file.specs.FaultLaws.{GivesFaults, HasOneFault, TextsHaveNone, TextOrFault};
ghost use Rattle.tib_grammar_file.specs.GrammarText.{GrammarText};
ghost use Rattle.tib_grammar_file.specs.Printable.{ArePrintable};
ghost use Rattle.tib_grammar_file.specs.Printed.{AreLabelled, grammar_text};
ghost use Rattle.tib_grammar_file.specs.Rule.{ReadsRules};

/// The parts that are read from tokens are those of the rule that the tokens spell.
pub fn rules_are_read()
    ensures { ReadsRules }
{}

/// The function that says what a file holds gives a fault exactly if this is the first of the file.
pub fn faults_are_read()
    ensures { GivesFaults }
{}

/// A file has at most one first fault.
pub fn first_fault_is_one()
    ensures { HasOneFault }
{}

/// A file with a fault is not the text of any grammar within the limit on nodes, over any table of
/// labels.
pub fn faults_have_no_text()
    ensures { TextsHaveNone }
{}

/// Each file is the text of a grammar within the limit on nodes, over some table of labels, or it
/// has a first fault.
pub fn files_are_texts_or_faulty()
    ensures { TextOrFault }
{}

/// Bytes are the text of at most one grammar over one table of distinct labels.
pub fn text_has_one_grammar()
    ensures { (scale : Scale) (labels : List (List ℕ)) (bytes : List ℕ) (g h : GrammarOf) →
        Distinct labels → GrammarText scale labels bytes g → GrammarText scale labels bytes h →
        g ≡ h }
{}

/// The rules of a grammar that was read can be printed over the same table.
pub fn read_grammars_are_printable()
    ensures { (scale : Scale) (labels : List (List ℕ)) (bytes : List ℕ) (g : GrammarOf) →
        GrammarText scale labels bytes g → ArePrintable scale labels g.rules }
{}

/// The labels of rules that can be printed are in the table.
pub fn printable_is_labelled()
    ensures { (scale : Scale) (labels : List (List ℕ)) (rules : List (Rule ℕ)) →
        ArePrintable scale labels rules → AreLabelled (length labels) rules }
{}

/// Rules that can be printed over a table can be printed over one that has grown.
pub fn printable_stays()
    ensures { (scale : Scale) (early labels : List (List ℕ)) (rules : List (Rule ℕ)) →
        ArePrintable scale early rules → Grows early labels → ArePrintable scale labels rules }
{}

/// Bytes that are the text of two grammars, each over a table of labels of its own, are that of one
/// grammar by the texts of its labels.
pub fn one_grammar_by_text()
    ensures { (scale : Scale) (labels others : List (List ℕ)) (bytes : List ℕ) (g h : GrammarOf) →
        GrammarText scale labels bytes g → GrammarText scale others bytes h →
        AgreeByText labels others g h }
{}

/// Bytes that are the text of trees over two tables of labels are that of the same trees by the
/// texts of their labels, and trees that agree so are printed alike.
pub fn trees_are_one_by_text()
    ensures trees { (labels others : List (List ℕ)) (bytes : List ℕ) (ts us : List (Tree ℕ)) →
        TreesText labels bytes ts → TreesText others bytes us →
        Along (AreOneTree labels others) ts us }
    ensures printed { (labels others : List (List ℕ)) (t u : Tree ℕ) →
        AreOneTree labels others t u → tree_text labels t ≡ tree_text others u }
{}

/// Grammars that agree by the texts of their labels have one series: trees that agree by these
/// texts have the same value.
pub fn one_series_by_text()
    ensures { (product : ℕ → ℕ → ℕ) (labels others : List (List ℕ)) (g h : GrammarOf) (t u : Tree ℕ)
        (v : Option ℕ) → Distinct labels → Distinct others → AgreeByText labels others g h →
        AreOneTree labels others t u → IsSeries product g.rules t v → IsSeries product h.rules u v }
{}

/// What is printed of a grammar is the text of the same grammar, states by their names, and reads
/// back where no right-hand side has more than 10,000 nodes. No label of a rule may have a line
/// feed, each state but the start needs a rule, and where weights are not kept all costs are 0.
pub fn printed_grammars_are_read()
    ensures { PrintsBack }
{}

/// What is printed of a grammar whose rules ascend by their left states is the text of this very
/// grammar: its states keep their numbers.
pub fn sorted_grammars_are_read()
    ensures { (scale : Scale) (labels : List (List ℕ)) (g : GrammarOf) → HasText scale labels g →
        Ascends (λ r s. r.left ≤ s.left) g.rules →
        GrammarText scale labels (grammar_text scale labels g) g }
{}

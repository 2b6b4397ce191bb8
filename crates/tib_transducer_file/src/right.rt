// The right sides of rules: how they are read, and the rules that are made with them.
ghost use Rattle.std.specs.Prelude.{◌≡◌, ◌≤◌, ◌<◌, ◌+◌, ◌-◌, ◌^◌, ℕ, List, [], length, map, if◌then◌else◌, All, IfOk, Option, None, Some, false, IsTrue};
ghost use Rattle.indexmap.specs.IndexSet.{keys};
ghost use Rattle.tib_lex.specs.Grammar.{Word};
ghost use Rattle.tib_lex.specs.Line.{Lies, words_at};
ghost use Rattle.tib_lex.specs.Lines.{HasNoFeed};
ghost use Rattle.tib_tree.specs.Grows.{Grows, AddsAll};
ghost use Rattle.tib_tree.specs.Shape.{items_back, item_at, PlaceLies};
ghost use Rattle.tib_tree.specs.Trees.{most_nodes};
ghost use Rattle.tib_tree.specs.Written.{Item as ItemOf};
ghost use Rattle.tib_tree.specs.declared.shape.Place.{Place};
ghost use Rattle.tib_grammar.specs.Sides.{Symbol};
ghost use Rattle.tib_transducer.specs.declared.Pair.{Pair};
ghost use Rattle.tib_transducer_file.specs.Forms.{pair_in as spec_pair_in};
ghost use Rattle.tib_transducer_file.specs.Formats.{IsFormat};
ghost use Rattle.tib_transducer_file.specs.Reader.{IsRightAt, IsWholeSide};
ghost use Rattle.tib_transducer_file.specs.Rule.{is_unknown};
ghost use Rattle.tib_transducer_file.specs.Value.{IsRightNode, RuleView, right_text, state_before, view_of};

use indexmap::IndexSet;
use std::alloc::{AllocError, Global};
use tib_cost::Cost;
use tib_grammar::Side;
use tib_lex::Token;
use tib_transducer::Variable;
use tib_tree::{Labels, Place};

/// A kind of right sides and its reader, with memory that is reused for each line.
pub trait RightReader: Drop {
    /// A node of a right side: a pair, or a label or word.
    type Node: Drop;
    /// A rule with such a right side.
    type Rule: Drop;

    // Which tokens are which items.
    ghost spells: { List Word → List ItemOf → Type 0 };

    // The items that are read of tokens.
    ghost reads: { List Word → Option (List ItemOf) };

    // What holds of the items of one right side together, and of the place of each.
    ghost is_whole: { List ItemOf → Type 0 };

    ghost is_node: { Place → Type 0 };

    // The places of what was read last, the last one first.
    ghost places_of: { Self → List Place };

    // A node as a symbol and its number of children, and the parts of a rule.
    ghost symbol_of: { Self.Node → Symbol ℕ (Pair ℕ) × ℕ };

    ghost view: { Self.Rule → RuleView };

    /// A reader that has read nothing. It takes no memory. Worst case: O(1) steps.
    fn new(alloc: Global) -> Self;

    /// Reads the tokens of a right side, if they are one. After false, and after an error, which
    /// comes only if memory is refused, the reader can be used again. Worst case: O(n) steps for n
    /// tokens.
    fn read_right(&mut self, line: &[u8], tokens: &[Token]) -> Result<bool, AllocError>
        requires few { length tokens.now < 2 ^ 32 - 1 }
        requires lie { All (Lies (length line.now)) tokens.now }
        ensures items { IfOk result (λ ok. reads (words_at line.now tokens.now)
            ≡ (if ok then Some (items_back line.now (places_of self.new)) else None)) }
        ensures lie { IfOk result (λ ok. IsTrue ok →
            All (PlaceLies (length line.now)) (places_of self.new)) }
        ensures right { IfOk result (λ ok. IsTrue ok →
            IsRightAt is_whole is_node line.now (places_of self.new)) };

    /// The places of what was read last, the last one first. It takes no memory. Worst case: O(1)
    /// steps.
    fn places(&self) -> &[Place]
        ensures { result.now ≡ places_of self.now };

    /// A node of a right side: a pair, whose variable goes by its place among those of the left
    /// side, or a label or word. Their texts go into the tables, which keep the numbers of the
    /// texts that they held; `text` is room for the text of a quoted token. Err only if memory is
    /// refused, and then each table has the texts that it had, or one more. Worst case: O(n) steps
    /// for a token of n bytes, where a look-up by hash counts once.
    fn read_node(
        line: &[u8],
        place: Place,
        variables: &IndexSet<u32>,
        names: &mut Labels,
        labels: &mut Labels,
        text: &mut Vec<u8>,
    ) -> Result<Self::Node, AllocError>
        requires node { is_node place }
        requires lies { PlaceLies (length line.now) place }
        requires plain { HasNoFeed line.now }
        requires known { is_unknown (keys variables.now) (spec_pair_in (item_at line.now place))
            ≡ false }
        requires variables { length (keys variables.now) ≤ most_nodes }
        requires names { length names.old < 2 ^ 32 - 1 }
        requires labels { length labels.old < 2 ^ 32 - 1 }
        ensures item { IfOk result (λ s. IsRightNode names.new labels.new (keys variables.now)
            (symbol_of s) (item_at line.now place)) }
        ensures states { IfOk result (λ _. AddsAll names.old
            (state_before (spec_pair_in (item_at line.now place)) []) names.new) }
        ensures texts { IfOk result (λ _. AddsAll labels.old (right_text
            (spec_pair_in (item_at line.now place)) (item_at line.now place).text) labels.new) }
        ensures names { Grows names.old names.new }
        ensures labels { Grows labels.old labels.new }
        ensures few_names { length names.new ≤ length names.old + 1 }
        ensures few_labels { length labels.new ≤ length labels.old + 1 };

    /// The rule of these parts, the nodes of its right side in order. It takes no memory. Worst
    /// case: O(n) steps for n nodes.
    fn rule(state: u32, left: Side<Variable>, nodes: Vec<Self::Node>, cost: Cost) -> Self::Rule
        requires few { length nodes.items ≤ most_nodes }
        requires whole { IsWholeSide is_whole (map symbol_of nodes.items) }
        ensures { view result ≡ view_of state left (map symbol_of nodes.items) cost };

    ghost format: { IsFormat spells reads };
}

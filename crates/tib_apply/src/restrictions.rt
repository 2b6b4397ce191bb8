// The labels of labelled variables, by number.
ghost use Rattle.std.specs.Prelude.{◌≡◌, ◌<◌, ◌^◌, ◌-◌, ℕ, [], length, nat_eq, IsTrue, false, IfOk, OnOk};
ghost use Rattle.tib_grammar.specs.Items.{holes_in};
ghost use Rattle.tib_apply.specs.Restrictions.{labels_of, all_labels, restricted_labels, restriction, Admits};
ghost use Rattle.tib_apply.specs.Gathering.{gathered};

use indexmap::IndexSet;
use std::alloc::{AllocError, Global};
use std::marker::Model;
use tib_grammar::Item;
use tib_transducer::{TransducerRule, Variable};
use tib_tree::Label;

/// The distinct labels of the labelled variables of a transducer, in the order of rules and of
/// preorder on the left. Contracts see it as the list of these labels. A label's restriction is its
/// number in this list, from 1.
#[derive(Drop)]
pub struct Restrictions {
    labels: IndexSet<Label>,
}

impl Model for Restrictions {
    ghost use Rattle.std.specs.Prelude.{ℕ, List};
    ghost use Rattle.tib_apply.specs.Gathering.{labels_in, AreFew};

    ghost Value = { List ℕ };

    ghost view = { labels_in };

    ghost invariant = { AreFew };
}

// Adds the labels of the labelled variables among some items.
fn add_labels(labels: &mut IndexSet<Label>, items: &[Item<Variable>]) -> Result<(), AllocError>
    ensures { OnOk result (labels.new.keys ≡ gathered labels.old.keys
        (labels_of (holes_in items.now))) }
{
    for item in items {
        if let Item::Hole(variable) = item {
            if let Some(label) = variable.label {
                labels.insert(label)?;
            }
        }
    }
    Ok(())
}

// The labels of the labelled variables of some rules, each once.
fn labels_of_rules(
    alloc: Global,
    rules: &[TransducerRule<u32>],
) -> Result<IndexSet<Label>, AllocError>
    ensures { IfOk result (λ labels. labels.keys ≡ gathered [] (all_labels rules.now)) }
{
    let mut labels = IndexSet::new(alloc);
    for rule in rules {
        add_labels(&mut labels, rule.left.items())?;
    }
    Ok(labels)
}

impl Restrictions {
    /// The restrictions of the variables of some rules. Err if memory is refused, or there are more
    /// than 4,000,000,000 labels. Cost: one pass over the left-hand sides.
    pub fn new(alloc: Global, rules: &[TransducerRule<u32>]) -> Result<Restrictions, AllocError>
        ensures { IfOk result (λ r. r ≡ restricted_labels rules.now) }
    {
        let labels = labels_of_rules(alloc, rules)?;
        if labels.len() > 4_000_000_000 {
            return Err(AllocError);
        }
        Ok(Restrictions { labels })
    }

    /// The restriction of a variable with this label: 0 where it has none, and otherwise the number
    /// of the label, or one more than all where the list lacks it. Cost: one look-up by hash.
    pub fn number(&self, label: Option<Label>) -> u32
        ensures { result ≡ restriction self.now label }
    {
        let Some(label) = label else {
            return 0;
        };
        match self.labels.get_index_of(&label) {
            Some(place) => place as u32 + 1,
            None => self.labels.len() as u32 + 1,
        }
    }

    /// Whether a restriction admits the trees with a label at the root: 0 admits all, another
    /// number those of its own label. It takes no memory.
    pub fn admits(&self, restriction: u32, label: Label) -> bool
        ensures yes { IsTrue result → Admits self.now restriction label }
        ensures no { result ≡ false → Admits self.now restriction label → ⊥ }
    {
        if restriction == 0 {
            return true;
        }
        match self.labels.get_index(restriction as usize - 1) {
            Some(own) => *own == label,
            None => false,
        }
    }
}

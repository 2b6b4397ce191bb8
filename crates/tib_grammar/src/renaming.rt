// Sides and rules under new numbers of states.
ghost use Rattle.std.specs.Prelude.{◌≡◌, ◌<◌, [], ◌∷◌, length, map};
ghost use Rattle.tib_grammar.specs.GrammarOf.{named_rule};
ghost use Rattle.tib_grammar.specs.Items.{holes_in};
ghost use Rattle.tib_grammar.specs.Range.{AllBelow, AreInRange};
ghost use Rattle.tib_grammar.specs.Renaming.{number_in, item_map};
ghost use Rattle.tib_grammar.specs.Sides.{holes_of, side_map};

use crate::{Item, Rule, Side};

// Gives the state of an item its new number.
fn rename_item(item: &mut Item<u32>, numbers: &[u32])
    requires { AllBelow (length numbers.now) (holes_in (item.old ∷ [])) }
    ensures { item.new ≡ item_map (number_in numbers.now) item.old }
{
    if let Item::Hole(state) = item {
        *state = numbers[*state as usize];
    }
}

// Gives the states among some items their new numbers.
fn rename_items(items: &mut [Item<u32>], numbers: &[u32])
    requires { AllBelow (length numbers.now) (holes_in items.old) }
    ensures { items.new ≡ map (item_map (number_in numbers.now)) items.old }
{
    for item in items.iter_mut() {
        rename_item(item, numbers);
    }
}

impl Side<u32> {
    /// Gives each state the number that a list has for it. It takes no memory. Worst case: O(n)
    /// steps for n items.
    pub fn rename(&mut self, numbers: &[u32])
        requires { AllBelow (length numbers.now) (holes_of self.old) }
        ensures { self.new ≡ side_map (number_in numbers.now) self.old }
    {
        rename_items(self.items.as_mut_slice(), numbers);
    }
}

impl Rule<u32> {
    /// Gives each state the number that a list has for it. It takes no memory. Worst case: O(n)
    /// steps for n items.
    pub fn rename(&mut self, numbers: &[u32])
        requires left { self.old.left < length numbers.now }
        requires right { AllBelow (length numbers.now) (holes_of self.old.right) }
        ensures { self.new ≡ named_rule (number_in numbers.now) self.old }
    {
        self.left = numbers[self.left as usize];
        self.right.rename(numbers);
    }
}

/// Gives the states of some rules the numbers that a list has for them. It takes no memory. Worst
/// case: one pass over the items of the rules.
pub fn rename_rules(rules: &mut [Rule<u32>], numbers: &[u32])
    requires { AreInRange (length numbers.now) rules.old }
    ensures { rules.new ≡ map (named_rule (number_in numbers.now)) rules.old }
{
    for rule in rules.iter_mut() {
        rule.rename(numbers);
    }
}

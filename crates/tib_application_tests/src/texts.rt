// Rules over positions as text.
use std::alloc::{AllocError, Global};
use tib_cost::Cost;
use tib_grammar::{Item, Rule};

/// Whether a text was made, and is this one.
pub fn is_text(text: Result<String, AllocError>, want: &str) -> bool {
    match text {
        Ok(text) => text.as_str() == want,
        Err(_) => false,
    }
}

/// A mark, and after it a number in decimal digits.
pub fn write_marked(text: &mut String, mark: &str, number: u64) -> Result<(), AllocError> {
    text.push_str(mark)?;
    let digits = number.to_string(*text.allocator())?;
    text.push_str(digits.as_str())
}

/// Numbers with a full stop between them, and a blank after them.
pub fn write_dotted(text: &mut String, first: u32, others: &[u32]) -> Result<(), AllocError> {
    write_marked(text, "", first as u64)?;
    for number in others {
        write_marked(text, ".", *number as u64)?;
    }
    text.push_str(" ")
}

// A cost as `# 5; `.
fn write_cost(text: &mut String, cost: Cost) -> Result<(), AllocError> {
    write_marked(text, "# ", cost.get())?;
    text.push_str("; ")
}

// A blank before a label, and a colon before a position too.
fn write_item(text: &mut String, item: &Item<u32>) -> Result<(), AllocError> {
    match item {
        Item::Label { label, .. } => write_marked(text, " ", *label as u64),
        Item::Hole(position) => write_marked(text, " :", *position as u64),
    }
}

fn write_items(text: &mut String, items: &[Item<u32>]) -> Result<(), AllocError> {
    for item in items {
        write_item(text, item)?;
    }
    text.push_str(" ")
}

fn write_rule(text: &mut String, rule: &Rule<u32>) -> Result<(), AllocError> {
    write_marked(text, "", rule.left as u64)?;
    text.push_str(" >")?;
    write_items(text, rule.right.items())?;
    write_cost(text, rule.cost)
}

/// A bar, rules over positions as `0 > 7 :1 :2 # 5; `, and after them the parts.
pub fn write_rules(text: &mut String, rules: &[Rule<u32>], parts: u64) -> Result<(), AllocError> {
    text.push_str("| ")?;
    for rule in rules {
        write_rule(text, rule)?;
    }
    write_marked(text, "", parts)
}

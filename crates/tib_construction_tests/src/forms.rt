// Canonical forms, as text.
ghost use Rattle.std.specs.Prelude.{◌≡◌, ◌<◌, length, IfOk};
ghost use Rattle.tib_lex.specs.Lists.{Distinct};
ghost use Rattle.tib_grammar_file.specs.Printed.{AreLabelled};

use std::alloc::{AllocError, Global};
use std::test::Fail;
use tib_canon::{Begin, Printed, canonical, to_grammar};
use tib_cost::{Boolean, MinPlus, Semiring};
use tib_expand::{Found, TableKey};
use tib_grammar::Grammar;
use tib_grammar_file::{print_grammar, read_grammar};
use tib_io::GrowingSink;
use tib_tree::Labels;

/// A number as a key.
#[derive(Debug, Drop, PartialEq, Eq, PartialOrd, Ord, Hash)]
struct Number {
    number: u64,
}

impl TableKey for Number {
    ghost use Rattle.std.specs.Prelude.{◌%◌};
    ghost use Rattle.std.proofs.Common.{rules, arith, mod-lt};

    ghost shelf_of = { λ k. k.number % 16 };

    ghost entries_of = { λ _. 1 };

    fn shelf(&self) -> u32 {
        (self.number % 16) as u32
    }

    fn entries(&self) -> u64 {
        1
    }

    ghost low = { λ k. mod-lt k.number (Prim.omega arith) };

    ghost same = { λ x y e. Prim.search rules };
}

// Three keys in an order that does not ascend.
fn three_keys(alloc: Global) -> Result<Vec<Number>, AllocError>
    ensures three { IfOk result (λ v. length v.items ≡ 3) }
    ensures distinct { IfOk result (λ v. Distinct v.items) }
{
    let mut keys = Vec::new(alloc);
    keys.push(Number { number: 7 })?;
    keys.push(Number { number: 2 })?;
    keys.push(Number { number: 9 })?;
    Ok(keys)
}

// The text of a form, which is what its grammar prints.
fn printed<S: Semiring>(alloc: Global, form: &Printed<S>, labels: &Labels) -> Result<Vec<u8>, Fail>
    requires { AreLabelled (length labels.now) form.now.grammar.rules }
{
    let mut sink = GrowingSink::new(alloc);
    let Ok(()) = print_grammar(&form.grammar, labels, &mut sink) else {
        return Err("no memory".into());
    };
    if sink.bytes() != form.text.bytes() {
        return Err("the grammar prints as another text".into());
    }
    Ok(sink.bytes().to_vec(alloc)?)
}

// The grammar of a text, with its labels.
fn read<S: Semiring>(alloc: Global, text: &[u8]) -> Result<(Grammar<S>, Labels), Fail>
    ensures { IfOk result (λ read. AreLabelled (length read.1) read.0.rules) }
{
    if text.len() > 8_000_000 {
        return Err("too long".into());
    }
    let mut labels = Labels::new(alloc);
    match read_grammar::<S>(alloc, text, &mut labels) {
        Ok(grammar) => Ok((grammar, labels)),
        Err(_) => Err("the text was refused".into()),
    }
}

// The canonical grammar over the three keys with the rules of a grammar, as it is printed.
fn over_keys(
    alloc: Global,
    grammar: Grammar<Boolean>,
    labels: &Labels,
    start: u32,
) -> Result<Vec<u8>, Fail>
    requires { AreLabelled (length labels.now) grammar.rules }
{
    if start > 2 || grammar.states() != 3 {
        return Err("not three states".into());
    }
    grammar.is_sound();
    let (_, rules) = grammar.into_parts();
    let found = Found {
        order: three_keys(alloc)?,
        rules,
        parts: 0,
    };
    let form = to_grammar::<Boolean, Number>(alloc, found, Begin::At(start), labels)?;
    printed(alloc, &form, labels)
}

// The same for the rules of a text.
fn answer_over_keys(alloc: Global, text: &[u8], start: u32) -> Result<Vec<u8>, Fail> {
    let (grammar, labels) = read::<Boolean>(alloc, text)?;
    over_keys(alloc, grammar, &labels, start)
}

// The canonical form of the grammar of a text, as it is printed.
fn answer<S: Semiring>(alloc: Global, text: &[u8]) -> Result<Vec<u8>, Fail> {
    let (grammar, labels) = read::<S>(alloc, text)?;
    let form = canonical(alloc, grammar, &labels)?;
    printed(alloc, &form, &labels)
}

// A grammar whose costs are added, and its canonical form.
static SMALL: [(&[u8], &[u8]); 7] = [
    (
        b"q\nq -> f(s q) # 3\nq -> b # 3\nr -> b # 2\ns -> g(t)\nt -> a\n",
        b"q0\nq0 -> b # 3\nq0 -> f(q1 q0) # 3\nq1 -> g(q2) # 0\nq2 -> a # 0\n",
    ),
    (
        b"q\nq -> f(x y)\nx -> \"q\"\ny -> \"q0\"\n",
        b"q0\nq0 -> f(q1 q2) # 0\nq1 -> q # 0\nq2 -> \"q0\" # 0\n",
    ),
    (
        b"q\nq -> a # 5\nq -> a # 2\nq -> b\nq -> a # 10\n",
        b"q0\nq0 -> a # 2\nq0 -> b # 0\n",
    ),
    (
        b"q\nq -> a(q)\nq -> a # 10\nq -> B\n",
        b"q0\nq0 -> B # 0\nq0 -> a # 10\nq0 -> a(q0) # 0\n",
    ),
    (b"q\n", b"q0\n"),
    (b"q\nq -> f(q)\np -> a\n", b"q0\n"),
    (
        b"q\nq -> f(p r)\nr -> c\np -> c\n",
        b"q0\nq0 -> f(q2 q1) # 0\nq1 -> c # 0\nq2 -> c # 0\n",
    ),
];

#[test]
fn small_grammars_have_their_forms(rt: HostRuntime) -> Result<(), Fail> {
    for (text, want) in &SMALL {
        assert!(rt; answer::<MinPlus>(rt.alloc(), *text)?.as_slice() == *want);
    }
    Ok(())
}

#[test]
fn states_are_sorted_by_number(rt: HostRuntime) -> Result<(), Fail> {
    let text =
        b"a\na -> f(b)\nk -> x\nb -> f(c)\nc -> f(d)\nd -> f(e)\ne -> f(g)\ng -> f(h)\nh -> f(i)\ni -> f(j)\nj -> f(l)\nl -> f(k)\n";
    let want =
        b"q0\nq0 -> f(q2)\nq1 -> x\nq2 -> f(q3)\nq3 -> f(q4)\nq4 -> f(q5)\nq5 -> f(q6)\nq6 -> f(q7)\nq7 -> f(q8)\nq8 -> f(q9)\nq9 -> f(q10)\nq10 -> f(q1)\n";
    let printed = answer::<Boolean>(rt.alloc(), text)?;
    assert_eq!(rt; printed.as_slice(), want.as_slice());
    Ok(())
}

// The place of the start, and the canonical form over the three keys.
static OVER_KEYS: [(u32, &[u8]); 2] = [
    (0, b"q0\nq0 -> f(q1 q2)\nq1 -> x\nq2 -> g(q0)\nq2 -> y\n"),
    (2, b"q0\nq0 -> g(q2)\nq0 -> y\nq1 -> x\nq2 -> f(q1 q0)\n"),
];

#[test]
fn states_are_named_by_their_keys(rt: HostRuntime) -> Result<(), Fail> {
    let text = b"a\na -> f(b c)\nb -> x\nc -> y\nc -> g(a)\n";
    for (start, want) in &OVER_KEYS {
        assert!(rt; answer_over_keys(rt.alloc(), text, *start)?.as_slice() == *want);
    }
    Ok(())
}

// The text of a grammar of this number of states beside the start, each with a rule of a label of
// its own, or of the start alone with all these rules.
fn wide_text(alloc: Global, count: u32, one_state: bool) -> Result<Vec<u8>, AllocError> {
    let mut text = b"s\n".to_vec(alloc)?;
    for number in 0..count {
        let digits = number.to_string(alloc)?;
        text.push(b's')?;
        if !one_state {
            text.extend_from_slice(digits.as_bytes())?;
        }
        text.extend_from_slice(b" -> w")?;
        text.extend_from_slice(digits.as_bytes())?;
        text.push(b'\n')?;
    }
    Ok(text)
}

// How many lines a text has.
fn count_lines(text: &[u8]) -> usize {
    text.iter().filter(|byte| **byte == b'\n').count()
}

#[test]
fn more_rules_than_16_bits_count_are_kept(rt: HostRuntime) -> Result<(), Fail> {
    let text = wide_text(rt.alloc(), 66_000, true)?;
    let printed = answer::<Boolean>(rt.alloc(), &text)?;
    assert!(rt; count_lines(&printed) == 66_001);
    Ok(())
}

// How many states and rules the grammar of a text has, and whether it is in deterministic form.
fn measure(alloc: Global, text: &[u8]) -> Result<(u32, u32, bool), Fail> {
    let (grammar, _) = read::<Boolean>(alloc, text)?;
    let deterministic = grammar.deterministic(alloc).is_ok();
    Ok((grammar.states(), grammar.rules(), deterministic))
}

#[test]
fn more_states_than_16_bits_count_are_read(rt: HostRuntime) -> Result<(), Fail> {
    let text = wide_text(rt.alloc(), 66_000, false)?;
    assert_eq!(rt; measure(rt.alloc(), &text)?, (66_001, 66_000, true));
    Ok(())
}

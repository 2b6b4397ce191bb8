// `demo`: a grammar that is made for a number, how large its determinization is, and its cheapest
// tree.
ghost use Rattle.std.specs.Prelude.{[], ◌≡◌, ◌≤◌, ◌<◌, ◌^◌, ◌++◌, codes, decimal, IfErr, IfOk, OnOk};
ghost use Rattle.tib_grammar_file.specs.Printable.{ArePrintable};
ghost use Rattle.tib_grammar_file.specs.Read.{ReadsAs};
ghost use Rattle.tib_lex.specs.Lists.{Distinct};
ghost use Rattle.tib_operations.specs.Demo.{demo_text, demo_makes, step_line, summary_text, HasDemoText, HasSummary, IsSummaryFault};
ghost use Rattle.tib_operations.specs.Determinize.{IsDeterminizedText, determinize_makes};
ghost use Rattle.tib_operations.specs.Made.{IsLimit, IsMadeFault};

use crate::determinize::{determinization_of, determinization_of_together};
use std::alloc::{AllocError, Global};
use std::sync::Wait;
use std::thread::Threads;
use tib_canon::Printed;
use tib_cost::Semiring;
use tib_expand::Gate;
use tib_grammar::Grammar;
use tib_grammar_file::{faults_have_no_text, read_grammar, read_grammars_are_printable};
use tib_io::{Failed, GrowingSink};
use tib_lex::ReadError;
use tib_operations::Status;
use tib_reached::Hunters;
use tib_texts::{kbest_text, product_has_laws, write_about, write_piece};
use tib_tree::Labels;

// Adds a piece to a text.
fn add_piece(text: &mut GrowingSink, piece: &[u8]) -> Result<(), Failed>
    ensures { OnOk result (text.new.bytes ≡ text.old.bytes ++ piece.now) }
{
    write_piece::<GrowingSink>(text, piece)
}

// Adds a number between two pieces to a text.
fn add_about(text: &mut GrowingSink, first: &[u8], number: u64, last: &[u8]) -> Result<(), Failed>
    ensures { OnOk result (text.new.bytes ≡ text.old.bytes
        ++ (first.now ++ decimal number ++ last.now)) }
{
    write_about::<GrowingSink>(text, first, number, last)
}

// Adds the line of the rule that leads from the state after this one to this one.
fn add_step(text: &mut GrowingSink, label: &[u8], state: u32) -> Result<(), Failed>
    ensures { OnOk result (text.new.bytes ≡ text.old.bytes ++ step_line label.now state) }
{
    add_about(text, b"p", state as u64 + 1, b" -> ")?;
    add_piece(text, label)?;
    add_about(text, b"(p", state as u64, b")\n")
}

// Adds both lines of the state after this one.
fn add_steps(text: &mut GrowingSink, state: u32) -> Result<(), Failed>
    ensures { OnOk result (text.new.bytes ≡ text.old.bytes
        ++ (step_line (codes "a") state ++ step_line (codes "b") state)) }
{
    add_step(text, b"a", state)?;
    add_step(text, b"b", state)
}

/// The grammar file that `demo` makes for n from 1 to 16: its start has the trees of `a` and `b`
/// over `e` whose n-th label from the root is `a`, and its determinization has 2 ^ n + 1 states. It
/// fails only if memory is refused. The time is that of the text.
pub fn demo_text(alloc: Global, n: u32) -> Result<GrowingSink, Failed>
    requires { 1 ≤ n }
    ensures { IfOk result (λ text. text.bytes ≡ demo_text n) }
{
    let mut text = GrowingSink::new(alloc);
    add_about(&mut text, b"p", n as u64, b"\n")?;
    add_piece(
        &mut text,
        b"p0 -> e\np0 -> a(p0)\np0 -> b(p0)\np1 -> a(p0) # 1\n",
    )?;
    for before in 0..n - 1 {
        add_steps(&mut text, before + 1)?;
    }
    Ok(text)
}

// The three lines: how many states, how many rules, and a tree's line.
fn summary_text(alloc: Global, states: u32, rules: u32, line: &[u8]) -> Result<GrowingSink, Failed>
    ensures { IfOk result (λ text. text.bytes ≡ summary_text states rules line.now) }
{
    let mut text = GrowingSink::new(alloc);
    add_about(&mut text, b"states ", states as u64, b"\n")?;
    add_about(&mut text, b"rules ", rules as u64, b"\n")?;
    add_piece(&mut text, b"best ")?;
    add_piece(&mut text, line)?;
    Ok(text)
}

// The three lines of a grammar and of what its determinization returned, or the status with which
// the run ends.
fn summary_of_determinized<S: Semiring + Drop>(
    alloc: Global,
    grammar: &Grammar<S>,
    labels: &Labels,
    limit: u64,
    determinized: Result<Printed<S>, Status>,
) -> Result<GrowingSink, Status>
    requires printable { ArePrintable S.SCALE labels.now grammar.now.rules }
    requires limit { IsLimit limit }
    requires grammar { IfOk determinized (λ h. IsDeterminizedText S.SCALE S.product limit labels.now
        grammar.now h.text.bytes h.grammar) }
    requires within { IfOk determinized (λ _. (determinize_makes S.product limit
        grammar.now).within) }
    requires err { IfErr determinized (IsMadeFault (determinize_makes S.product limit
        grammar.now).more limit) }
    ensures text { IfOk result (λ text. HasSummary S.SCALE S.product limit labels.now grammar.now
        text.bytes) }
    ensures within { IfOk result (λ _. (determinize_makes S.product limit grammar.now).within) }
    ensures err { IfErr result (IsSummaryFault S.LEVELLED S.product limit labels.now grammar.now) }
{
    let canonical = match determinized {
        Ok(canonical) => canonical,
        Err(status) => return Err(status),
    };
    let best = match kbest_text::<S>(alloc, grammar, labels, limit, 1) {
        Ok(best) => best,
        Err(status) => return Err(status),
    };
    let states = canonical.grammar.names().len();
    let rules = canonical.grammar.rules();
    match summary_text(alloc, states, rules, best.bytes()) {
        Ok(text) => Ok(text),
        Err(Failed) => Err(Status::OutOfMemory),
    }
}

/// How many states and rules the determinization of a grammar has, and the line of its cheapest
/// tree. `TooMany` only where a normal form or the reached set has more parts than the limit;
/// `TreeTooLarge` only where some state has a cheapest tree of more than 10,000 nodes; otherwise
/// `OutOfMemory`. The time is that of the determinization and of the list of one tree.
pub fn summary_of<S: Semiring + Drop, G: Gate>(
    alloc: Global,
    grammar: &Grammar<S>,
    labels: &Labels,
    limit: u64,
    gate: &G,
) -> Result<GrowingSink, Status>
    requires printable { ArePrintable S.SCALE labels.now grammar.now.rules }
    requires limit { IsLimit limit }
    ensures text { IfOk result (λ text. HasSummary S.SCALE S.product limit labels.now grammar.now
        text.bytes) }
    ensures within { IfOk result (λ _. (determinize_makes S.product limit grammar.now).within) }
    ensures err { IfErr result (IsSummaryFault S.LEVELLED S.product limit labels.now grammar.now) }
{
    let determinized = determinization_of::<S, G>(alloc, grammar, labels, limit, gate);
    summary_of_determinized::<S>(alloc, grammar, labels, limit, determinized)
}

/// What `summary_of` returns, with the vectors hunted by this number of workers, 1 to 16, whatever
/// the order of their steps. It may wait forever, as the hunt by several workers. Errors are those
/// of `summary_of`.
pub fn summary_of_together<S: Semiring + Sync + Drop, R: Threads + Wait + Sync, G: Gate + Sync>(
    hunters: &Hunters<R, G>,
    alloc: Global,
    grammar: &Grammar<S>,
    labels: &Labels,
    limit: u64,
) -> Result<GrowingSink, Status>
    requires printable { ArePrintable S.SCALE labels.now grammar.now.rules }
    requires workers { (1 ≤ hunters.now.workers) × (hunters.now.workers ≤ 16) }
    requires limit { IsLimit limit }
    ensures text { IfOk result (λ text. HasSummary S.SCALE S.product limit labels.now grammar.now
        text.bytes) }
    ensures within { IfOk result (λ _. (determinize_makes S.product limit grammar.now).within) }
    ensures err { IfErr result (IsSummaryFault S.LEVELLED S.product limit labels.now grammar.now) }
{
    let determinized = determinization_of_together::<S, R, G>(
        hunters, alloc, grammar, labels, limit,
    );
    summary_of_determinized::<S>(alloc, grammar, labels, limit, determinized)
}

// The grammar that is made for n, read as a file is; it fails only if memory is refused.
fn demo_grammar<S: Semiring>(
    alloc: Global,
    n: u32,
    labels: &mut Labels,
) -> Result<Grammar<S>, AllocError>
    requires least { 1 ≤ n }
    requires most { n ≤ 16 }
    requires new { labels.old ≡ [] }
    ensures distinct { IfOk result (λ _. Distinct labels.new) }
    ensures read { IfOk result (λ g. ReadsAs S.SCALE labels.new (demo_text n) g) }
    ensures printable { IfOk result (λ g. ArePrintable S.SCALE labels.new g.rules) }
{
    let Ok(text) = demo_text(alloc, n) else {
        return Err(AllocError);
    };
    faults_have_no_text();
    let grammar = match read_grammar::<S>(alloc, text.bytes(), labels) {
        Ok(grammar) => grammar,
        Err(ReadError::Fault(_)) => unreachable!(),
        Err(ReadError::OutOfMemory) => return Err(AllocError),
    };
    read_grammars_are_printable();
    labels.len();
    Ok(grammar)
}

/// The three lines of the grammar that is made for n from 1 to 16, which is read as a file is.
/// `TooMany` only where a normal form or the reached set has more parts than the limit, otherwise
/// `OutOfMemory`. `TreeTooLarge` never comes, since the cheapest tree of each state of this grammar
/// is small. The time is that of a determinization with 2 ^ n + 1 states.
pub fn demo_of<S: Semiring + Drop, G: Gate>(
    alloc: Global,
    n: u32,
    limit: u64,
    gate: &G,
) -> Result<GrowingSink, Status>
    requires least { 1 ≤ n }
    requires most { n ≤ 16 }
    requires limit { IsLimit limit }
    ensures text { IfOk result (λ text. HasDemoText S.SCALE S.product limit n text.bytes) }
    ensures within { IfOk result (λ _. (demo_makes S.SCALE S.product limit n).within) }
    ensures err { IfErr result (IsMadeFault (demo_makes S.SCALE S.product limit n).more limit) }
{
    let mut labels = Labels::new(alloc);
    let Ok(grammar) = demo_grammar::<S>(alloc, n, &mut labels) else {
        return Err(Status::OutOfMemory);
    };
    summary_of::<S, G>(alloc, &grammar, &labels, limit, gate)
}

/// What `demo_of` returns, with the vectors hunted by this number of workers, 1 to 16, whatever the
/// order of their steps. It may wait forever, as the hunt by several workers. Errors are those of
/// `demo_of`.
pub fn demo_of_together<S: Semiring + Sync + Drop, R: Threads + Wait + Sync, G: Gate + Sync>(
    hunters: &Hunters<R, G>,
    alloc: Global,
    n: u32,
    limit: u64,
) -> Result<GrowingSink, Status>
    requires least { 1 ≤ n }
    requires most { n ≤ 16 }
    requires workers { (1 ≤ hunters.now.workers) × (hunters.now.workers ≤ 16) }
    requires limit { IsLimit limit }
    ensures text { IfOk result (λ text. HasDemoText S.SCALE S.product limit n text.bytes) }
    ensures within { IfOk result (λ _. (demo_makes S.SCALE S.product limit n).within) }
    ensures err { IfErr result (IsMadeFault (demo_makes S.SCALE S.product limit n).more limit) }
{
    let mut labels = Labels::new(alloc);
    let Ok(grammar) = demo_grammar::<S>(alloc, n, &mut labels) else {
        return Err(Status::OutOfMemory);
    };
    product_has_laws::<S>();
    summary_of_together::<S, R, G>(hunters, alloc, &grammar, &labels, limit)
}

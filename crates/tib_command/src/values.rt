// The values of the options and the positional words, which are taken as texts.
ghost use Rattle.std.specs.Prelude.{◌≡◌, ◌≤◌, ◌==◌, ℕ, IfOk, IfSome, IsTrue, option_map, length, map};
ghost use Rattle.std.specs.List.{list_any};
ghost use Rattle.std.specs.String.{string_bytes};
ghost use Rattle.tib_command.specs.declared.job.Mode.TheVariants.{MinPlus};
ghost use Rattle.tib_command.specs.declared.job.Operation.TheVariants.{Demo};
ghost use Rattle.tib_command.specs.Jobs.{are_files, beam_in, count_in, demo_in, files_in, mode_in, most_beam, most_demo, number_in, numeral_in, once, operation_in, takes_number, task_in, task_meaning, texts_of, word_count};

use crate::{MOST_BEAM, MOST_DEMO, Mode, Operation};
use std::alloc::{AllocError, Global};

/// The mode that has this name.
fn mode_in(text: &str) -> Option<Mode>
    ensures { result ≡ mode_in text.now }
{
    match text {
        "minplus" => Some(Mode::MinPlus),
        "bottleneck" => Some(Mode::Bottleneck),
        "widest" => Some(Mode::Widest),
        "boolean" => Some(Mode::Boolean),
        _ => None,
    }
}

/// The operation that has this name.
fn operation_in(text: &str) -> Option<Operation>
    ensures { result ≡ operation_in text.now }
{
    match text {
        "weigh" => Some(Operation::Weigh),
        "inside" => Some(Operation::Inside),
        "normal" => Some(Operation::Normal),
        "kbest" => Some(Operation::KBest),
        "intersect" => Some(Operation::Intersect),
        "union" => Some(Operation::Union),
        "difference" => Some(Operation::Difference),
        "forward" => Some(Operation::Forward),
        "backward" => Some(Operation::Backward),
        "compose" => Some(Operation::Compose),
        "image" => Some(Operation::Image),
        "parse" => Some(Operation::Parse),
        "compare" => Some(Operation::Compare),
        "determinize" => Some(Operation::Determinize),
        "check" => Some(Operation::Check),
        "prune" => Some(Operation::Prune),
        "trim" => Some(Operation::Trim),
        "through" => Some(Operation::Through),
        "count" => Some(Operation::Count),
        "runs" => Some(Operation::Runs),
        "invert" => Some(Operation::Invert),
        "domain" => Some(Operation::Domain),
        "demo" => Some(Operation::Demo),
        _ => None,
    }
}

/// The number that digits write, at least one and at most this many.
fn numeral_in(text: &str, digits: usize) -> Option<u64>
    requires { digits ≤ 16 }
    ensures { result ≡ numeral_in digits text.now }
{
    if text.len() > digits || text.starts_with('+') {
        return None;
    }
    text.parse::<u64>().ok()
}

/// The number that at most this many digits write, where it lies from `least` to `most`.
fn number_in(text: &str, digits: usize, least: u64, most: u64) -> Option<u64>
    requires { digits ≤ 16 }
    ensures { result ≡ number_in digits least most text.now }
{
    match numeral_in(text, digits) {
        Some(n) if least <= n && n <= most => Some(n),
        _ => None,
    }
}

/// The count of an option that occurs at most once.
pub(crate) fn number_once(values: Option<&[&str]>, default: u64, most: u64) -> Option<u64>
    requires least { 1 ≤ default }
    requires most { default ≤ most }
    ensures least { IfSome result (λ n. 1 ≤ n) }
    ensures bound { IfSome result (λ n. n ≤ most) }
    ensures value { result ≡ once default (count_in most) (texts_of values.entry) }
{
    match values {
        None | Some([]) => Some(default),
        Some([value]) => number_in(value, 12, 1, most),
        Some(_) => None,
    }
}

/// The beam, which occurs at most once.
pub(crate) fn beam_once(values: Option<&[&str]>) -> Option<u64>
    ensures bound { IfSome result (λ n. n ≤ most_beam) }
    ensures value { result ≡ once 0 beam_in (texts_of values.entry) }
{
    match values {
        None | Some([]) => Some(0),
        Some([value]) => number_in(value, 16, 0, MOST_BEAM),
        Some(_) => None,
    }
}

/// The mode, which occurs at most once.
pub(crate) fn mode_once(values: Option<&[&str]>) -> Option<Mode>
    ensures { result ≡ once MinPlus mode_in (texts_of values.entry) }
{
    match values {
        None | Some([]) => Some(Mode::MinPlus),
        Some([value]) => mode_in(value),
        Some(_) => None,
    }
}

/// What the positional words say.
#[derive(Drop)]
pub(crate) struct AskedFor {
    pub(crate) operation: Operation,
    pub(crate) files: Vec<String>,
    pub(crate) demo: u32,
}

/// The words as texts of their own.
fn copied(alloc: Global, words: &[&str]) -> Result<Vec<String>, AllocError>
    ensures texts { IfOk result (λ v. map (λ s. string_bytes s) v.items
        ≡ map (λ w. w.now) words.now) }
    ensures many { IfOk result (λ v. length v.items ≡ length words.now) }
{
    let mut copies = Vec::new(alloc);
    for word in words {
        copies.push(String::from_str(alloc, word)?)?;
    }
    Ok(copies)
}

/// How many file names follow the operation.
fn word_count(operation: Operation) -> usize
    ensures { result ≡ word_count operation }
{
    match operation {
        Operation::Inside
        | Operation::Normal
        | Operation::KBest
        | Operation::Determinize
        | Operation::Check
        | Operation::Prune
        | Operation::Trim
        | Operation::Through
        | Operation::Count
        | Operation::Runs
        | Operation::Invert
        | Operation::Domain => 1,
        Operation::Demo => 0,
        Operation::Weigh
        | Operation::Intersect
        | Operation::Union
        | Operation::Difference
        | Operation::Forward
        | Operation::Backward
        | Operation::Compose
        | Operation::Image
        | Operation::Parse
        | Operation::Compare => 2,
    }
}

/// Whether the operation takes a number in place of files.
fn takes_number(operation: Operation) -> bool
    ensures { result ≡ takes_number operation }
{
    matches!(operation, Operation::Demo)
}

/// Whether one of the words is empty.
fn has_empty(words: &[&str]) -> bool
    ensures { result ≡ list_any (λ w. length w == 0) (map (λ w. w.now) words.now) }
{
    for word in words {
        if word.is_empty() {
            return true;
        }
    }
    false
}

/// Whether the words are as many file names as the operation takes.
fn are_files(operation: Operation, words: &[&str]) -> bool
    ensures test { result ≡ are_files operation (map (λ w. w.now) words.now) }
    ensures many { IsTrue result → length words.now ≡ word_count operation }
{
    words.len() == word_count(operation) && !has_empty(words)
}

/// The file names of an operation, where the words are these.
fn files_in(
    alloc: Global,
    operation: Operation,
    words: &[&str],
) -> Result<Option<AskedFor>, AllocError>
    ensures task { IfOk result (λ r. option_map task_meaning r
        ≡ files_in operation (map (λ w. w.now) words.now)) }
    ensures files { IfOk result (λ r. IfSome r (λ t. length t.files.items ≡ word_count operation)) }
    ensures operation { IfOk result (λ r. IfSome r (λ t. t.operation ≡ operation)) }
    ensures none { IfOk result (λ r. IfSome r (λ t. t.demo ≡ 0)) }
{
    if !are_files(operation, words) {
        return Ok(None);
    }
    Ok(Some(AskedFor {
        operation,
        files: copied(alloc, words)?,
        demo: 0,
    }))
}

/// The number of `demo`, where the words are this one number.
fn demo_in(alloc: Global, words: &[&str]) -> Option<AskedFor>
    ensures task { option_map task_meaning result ≡ demo_in (map (λ w. w.now) words.now) }
    ensures files { IfSome result (λ t. length t.files.items ≡ word_count t.operation) }
    ensures least { IfSome result (λ t. 1 ≤ t.demo) }
    ensures most { IfSome result (λ t. t.demo ≤ most_demo) }
{
    let [word] = words else {
        return None;
    };
    let Some(demo) = number_in(word, 12, 1, MOST_DEMO) else {
        return None;
    };
    Some(AskedFor {
        operation: Operation::Demo,
        files: Vec::new(alloc),
        demo: demo as u32,
    })
}

/// What the positional words say, where they are of the language.
pub(crate) fn read_task(
    alloc: Global,
    places: Option<&[&str]>,
) -> Result<Option<AskedFor>, AllocError>
    ensures task { IfOk result (λ r. option_map task_meaning r ≡ task_in (texts_of places.entry)) }
    ensures files { IfOk result (λ r. IfSome r (λ t.
        length t.files.items ≡ word_count t.operation)) }
    ensures least { IfOk result (λ r. IfSome r (λ t. t.operation ≡ Demo → 1 ≤ t.demo)) }
    ensures most { IfOk result (λ r. IfSome r (λ t. t.demo ≤ most_demo)) }
{
    let Some([name, words @ ..]) = places else {
        return Ok(None);
    };
    let Some(operation) = operation_in(name) else {
        return Ok(None);
    };
    if takes_number(operation) {
        return Ok(demo_in(alloc, words));
    }
    files_in(alloc, operation, words)
}

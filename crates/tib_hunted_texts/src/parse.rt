// `parse`: the canonical grammar of all trees that a tree-to-string transducer turns into one
// string.
ghost use Rattle.std.specs.Prelude.{◌≤◌, length, IfErr, IfOk};
ghost use Rattle.tib_strings.specs.Range.{AreLinear, AreNondeleting};
ghost use Rattle.tib_image.specs.ParseAnswered.{IsParsed, AreOverOrder, HasParts, IsParseFault};
ghost use Rattle.tib_operations.specs.Made.{IsLimit};
ghost use Rattle.tib_operations.specs.Parse.{HasParseText, IsParseText, parse_makes, parse_demands, IsParseTextFault};
ghost use Rattle.tib_operations.specs.Words.{ArePlainWords};

use std::alloc::{AllocError, Global};
use std::sync::Wait;
use std::thread::Threads;
use tib_apply::ApplyError;
use tib_canon::{Begin, Printed, over_keys_texts_are_read, to_grammar};
use tib_cost::Semiring;
use tib_expand::{Found, Gate};
use tib_grammar::Rule;
use tib_grammar_file::printable_is_labelled;
use tib_image::parse::Key;
use tib_operations::Status;
use tib_reached::{Hunters, parse, parse_together};
use tib_strings::StringTransducer;
use tib_tree::{Label, Labels};

// The canonical form of the keys that a hunt returned, or the status with which the run ends.
fn canonical_of_parse<S: Semiring + Drop>(
    alloc: Global,
    transducer: &StringTransducer<S>,
    string: &[Label],
    labels: &Labels,
    limit: u64,
    hunted: Result<Found<Key, Rule<u32>>, ApplyError>,
) -> Result<Printed<S>, Status>
    requires transducer { ArePlainWords S.SCALE labels.now transducer.now.rules }
    requires limit { IsLimit limit }
    requires linear { IfOk hunted (λ _. AreLinear transducer.now.rules) }
    requires nondeleting { IfOk hunted (λ _. AreNondeleting transducer.now.rules) }
    requires reached { IfOk hunted (IsParsed transducer.now.rules string.now) }
    requires range { IfOk hunted AreOverOrder }
    requires parts { IfOk hunted (HasParts transducer.now.rules string.now) }
    requires within { IfOk hunted (λ f. f.parts ≤ limit) }
    requires few { IfOk hunted (λ f. length f.order.items ≤ limit) }
    requires few_rules { IfOk hunted (λ f. length f.rules.items ≤ limit) }
    requires fault { IfErr hunted (IsParseFault transducer.now.rules string.now limit) }
    ensures text { IfOk result (λ h.
        HasParseText S.SCALE S.product limit labels.now transducer.now string.now h.text.bytes) }
    ensures grammar { IfOk result (λ h. IsParseText S.SCALE S.product limit labels.now
        transducer.now string.now h.text.bytes h.grammar) }
    ensures within { IfOk result (λ _. (parse_makes limit transducer.now string.now).within) }
    ensures met { IfOk result (λ _. (parse_demands transducer.now).met) }
    ensures err { IfErr result (IsParseTextFault limit transducer.now string.now) }
{
    transducer.is_sound();
    let found = match hunted {
        Ok(found) => found,
        Err(ApplyError::Class { rule, fault }) => {
            let file = 1;
            return Err(Status::Class { file, rule, fault });
        }
        Err(ApplyError::TooMany { .. }) => return Err(Status::TooMany { limit }),
        Err(ApplyError::OutOfMemory) => return Err(Status::OutOfMemory),
    };
    printable_is_labelled();
    over_keys_texts_are_read::<S, Key>();
    match to_grammar::<S, Key>(alloc, found, Begin::At(0), labels) {
        Ok(canonical) => Ok(canonical),
        Err(AllocError) => Err(Status::OutOfMemory),
    }
}

/// The canonical grammar of the trees that a transducer, which is the first file, turns into a
/// string, each at its least cost; or the status with which the run ends. `Class` names the first
/// rule that is not linear or not nondeleting; `TooMany` comes where there is none and the reached
/// keys have more parts than the limit; `OutOfMemory` where memory is refused or the string has
/// 2^32 words or more. No normal form is made. The time is that of the edges of the keys that are
/// reached (`parse` of tib_reached).
pub fn parse_of<S: Semiring + Drop, G: Gate>(
    alloc: Global,
    transducer: &StringTransducer<S>,
    string: &[Label],
    labels: &Labels,
    limit: u64,
    gate: &G,
) -> Result<Printed<S>, Status>
    requires transducer { ArePlainWords S.SCALE labels.now transducer.now.rules }
    requires limit { IsLimit limit }
    ensures text { IfOk result (λ h.
        HasParseText S.SCALE S.product limit labels.now transducer.now string.now h.text.bytes) }
    ensures grammar { IfOk result (λ h. IsParseText S.SCALE S.product limit labels.now
        transducer.now string.now h.text.bytes h.grammar) }
    ensures within { IfOk result (λ _. (parse_makes limit transducer.now string.now).within) }
    ensures met { IfOk result (λ _. (parse_demands transducer.now).met) }
    ensures err { IfErr result (IsParseTextFault limit transducer.now string.now) }
{
    let hunted = parse::<S, G>(alloc, transducer, string, limit, gate);
    canonical_of_parse::<S>(alloc, transducer, string, labels, limit, hunted)
}

/// What `parse_of` returns, with the keys hunted by this number of workers, 1 to 16, whatever the
/// order of their steps. It may wait forever, as the hunt by several workers. Errors are those of
/// `parse_of`.
pub fn parse_of_together<S: Semiring + Sync + Drop, R: Threads + Wait + Sync, G: Gate + Sync>(
    hunters: &Hunters<R, G>,
    alloc: Global,
    transducer: &StringTransducer<S>,
    string: &[Label],
    labels: &Labels,
    limit: u64,
) -> Result<Printed<S>, Status>
    requires transducer { ArePlainWords S.SCALE labels.now transducer.now.rules }
    requires workers { (1 ≤ hunters.now.workers) × (hunters.now.workers ≤ 16) }
    requires limit { IsLimit limit }
    ensures text { IfOk result (λ h.
        HasParseText S.SCALE S.product limit labels.now transducer.now string.now h.text.bytes) }
    ensures grammar { IfOk result (λ h. IsParseText S.SCALE S.product limit labels.now
        transducer.now string.now h.text.bytes h.grammar) }
    ensures within { IfOk result (λ _. (parse_makes limit transducer.now string.now).within) }
    ensures met { IfOk result (λ _. (parse_demands transducer.now).met) }
    ensures err { IfErr result (IsParseTextFault limit transducer.now string.now) }
{
    let hunted = parse_together::<S, R, G>(hunters, alloc, transducer, string, limit);
    canonical_of_parse::<S>(alloc, transducer, string, labels, limit, hunted)
}

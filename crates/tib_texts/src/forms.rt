// The normal forms of grammars of files, within the limit of a job.
ghost use Rattle.std.specs.Prelude.{◌≡◌, ◌≤◌, ℕ, List, length, IfErr, IfOk};
ghost use Rattle.tib_cost.specs.Semiring.{ProductLaws};
ghost use Rattle.tib_grammar_file.specs.Printable.{ArePrintable};
ghost use Rattle.tib_inside.specs.Trimmed.{HasSameSeries};
ghost use Rattle.tib_normal.specs.NormalForm.{IsNormalForm, KeepsSeries, normal_parts};
ghost use Rattle.tib_k_best.specs.Trimmed.{HaveTreesBelow};
ghost use Rattle.tib_prune.specs.Loop.{AreInsidesOfAll};
ghost use Rattle.tib_canon.specs.TrimmedForms.{IsTrimmedForm};
ghost use Rattle.tib_operations.specs.Forms.{IsNamedForm, KeepsNames};
ghost use Rattle.tib_operations.specs.Made.{IsLimit, normal_form, IsMadeFault};

use std::alloc::Global;
use tib_canon::{normal_forms_are_printable, trimmed_is_printable};
use tib_cost::{Cost, Semiring};
use tib_grammar::Grammar;
use tib_k_best::trimmed_has_trees;
use tib_normal::{Normal, NormalError, normalize};
use tib_operations::Status;
use tib_prune::trim_with_insides;

/// The laws of the product. It computes nothing: a function whose semiring is shared among threads
/// has them by a call of this one.
pub fn product_has_laws<S: Semiring>()
    ensures { ProductLaws S.LEVELLED S.WEIGHTED S.product }
{}

/// The normal form of a grammar. `TooMany` only where it has more parts than the limit, otherwise
/// `OutOfMemory`. Cost: that of `normalize`.
pub fn normal_of<S: Semiring + Drop>(
    alloc: Global,
    grammar: &Grammar<S>,
    limit: u64,
) -> Result<Normal<S>, Status>
    requires limit { IsLimit limit }
    ensures form { IfOk result (λ m. IsNormalForm S.product (length grammar.now.names)
        grammar.now.rules (length m.names) m.rules) }
    ensures names { IfOk result (λ m. KeepsNames grammar.now m) }
    ensures series { IfOk result (λ m. KeepsSeries S.product (length grammar.now.names)
        grammar.now.rules m.rules) }
    ensures parts { IfOk result (λ m. normal_parts (length m.names) m.rules ≤ limit) }
    ensures within { IfOk result (λ _. (normal_form S.product limit grammar.now).within) }
    ensures err { IfErr result (IsMadeFault (normal_form S.product limit grammar.now).more limit) }
{
    match normalize::<S>(alloc, grammar, limit) {
        Ok(normal) => Ok(normal),
        Err(NormalError::TooMany { .. }) => Err(Status::TooMany { limit }),
        Err(NormalError::OutOfMemory) => Err(Status::OutOfMemory),
    }
}

/// The trimmed normal form of a grammar and the inside costs of its states. `TooMany` only where
/// the normal form has more parts than the limit, otherwise `OutOfMemory`. Cost: that of
/// `normal_of` and `trim_with_insides`.
pub fn costed_form<S: Semiring + Drop>(
    alloc: Global,
    grammar: &Grammar<S>,
    limit: u64,
) -> Result<(Normal<S>, Vec<Option<Cost>>), Status>
    requires limit { IsLimit limit }
    ensures form { IfOk result (λ m. IsTrimmedForm S.product grammar.now m.0) }
    ensures names { IfOk result (λ m. IsNamedForm S.product grammar.now m.0) }
    ensures within { IfOk result (λ _. (normal_form S.product limit grammar.now).within) }
    ensures series { IfOk result (λ m. HasSameSeries S.product grammar.now m.0) }
    ensures printable { IfOk result (λ m. (labels : List (List ℕ)) →
        ArePrintable S.SCALE labels grammar.now.rules → ArePrintable S.SCALE labels m.0.rules) }
    ensures below { IfOk result (λ m. HaveTreesBelow S.product m.0.rules) }
    ensures length { IfOk result (λ m. length m.1.items ≡ length m.0.names) }
    ensures insides { IfOk result (λ m. AreInsidesOfAll S.product m.0.rules m.1.items) }
    ensures err { IfErr result (IsMadeFault (normal_form S.product limit grammar.now).more limit) }
{
    grammar.is_sound();
    let normal = match normal_of::<S>(alloc, grammar, limit) {
        Ok(normal) => normal,
        Err(status) => return Err(status),
    };
    normal_forms_are_printable::<S>();
    trimmed_is_printable();
    trimmed_has_trees::<S>();
    normal.grammar();
    match trim_with_insides::<S>(alloc, normal) {
        Ok(trimmed) => {
            trimmed.0.grammar();
            Ok(trimmed)
        }
        Err(_) => Err(Status::OutOfMemory),
    }
}

/// The trimmed normal form of a grammar. Errors and cost are those of `costed_form`.
pub fn trimmed_form<S: Semiring + Drop>(
    alloc: Global,
    grammar: &Grammar<S>,
    limit: u64,
) -> Result<Normal<S>, Status>
    requires limit { IsLimit limit }
    ensures form { IfOk result (λ m. IsTrimmedForm S.product grammar.now m) }
    ensures names { IfOk result (λ m. IsNamedForm S.product grammar.now m) }
    ensures within { IfOk result (λ _. (normal_form S.product limit grammar.now).within) }
    ensures series { IfOk result (λ m. HasSameSeries S.product grammar.now m) }
    ensures printable { IfOk result (λ m. (labels : List (List ℕ)) →
        ArePrintable S.SCALE labels grammar.now.rules → ArePrintable S.SCALE labels m.rules) }
    ensures below { IfOk result (λ m. HaveTreesBelow S.product m.rules) }
    ensures err { IfErr result (IsMadeFault (normal_form S.product limit grammar.now).more limit) }
{
    match costed_form::<S>(alloc, grammar, limit) {
        Ok(costed) => {
            let (form, _insides) = costed;
            Ok(form)
        }
        Err(status) => Err(status),
    }
}

// Laws that hold of several operations together: the text of one run is a file of the next.
use super::running::{Outside, SOUND, run_words};
use std::alloc::Global;
use std::sync::Wait;
use std::test::Fail;
use std::thread::Threads;
use tib_operations::Status;

// Outside which nothing fails, with room for the text of a difference.
const ROOMY: Outside = Outside {
    room: 10_000,
    ..SOUND
};

// What a run of these words writes over the files `G` and `T`.
fn text_of<R: Threads + Wait + Sync>(
    rt: &R,
    alloc: Global,
    words: &[&str],
    first: &[u8],
    second: &[u8],
) -> Result<Vec<u8>, Fail> {
    let ran = run_words(rt, alloc, words, first, second, &ROOMY)?;
    if ran.status != Status::Done {
        return Err("a run is not done".into());
    }
    Ok(ran.out.bytes().to_vec(alloc)?)
}

// What an operation writes over one file.
fn made_of<R: Threads + Wait + Sync>(
    rt: &R,
    alloc: Global,
    operation: &str,
    file: &[u8],
) -> Result<Vec<u8>, Fail> {
    text_of(rt, alloc, &[operation, "G"], file, &[])
}

// What an operation writes over two files.
fn made_of_both<R: Threads + Wait + Sync>(
    rt: &R,
    alloc: Global,
    operation: &str,
    first: &[u8],
    second: &[u8],
) -> Result<Vec<u8>, Fail> {
    text_of(rt, alloc, &[operation, "G", "T"], first, second)
}

// Whether two grammars give each of these trees the same cost.
fn have_one_series<R: Threads + Wait + Sync>(
    rt: &R,
    alloc: Global,
    one: &[u8],
    other: &[u8],
    trees: &str,
) -> Result<bool, Fail> {
    let costs = made_of_both(rt, alloc, "weigh", one, trees.as_bytes())?;
    let others = made_of_both(rt, alloc, "weigh", other, trees.as_bytes())?;
    Ok(costs.as_slice() == others.as_slice())
}

const TREES: &str = "a\nb\nf(a)\nf(b)\ng(a b)\ng(f(a) b)\ng(g(a b) a)\nf(f(f(a)))\ng(b a)\n";

const ONE: &str = "q\nq -> g(q r) # 1\nq -> f(q) # 2\nq -> a # 3\nr -> b # 1\nr -> q # 4\n";

const OTHER: &str = "r\nr -> f(f(r))\nr -> a # 5\nr -> b # 1\nr -> g(a b)\n";

fn unions_hold<R: Threads + Wait + Sync>(rt: &R, alloc: Global) -> Result<bool, Fail> {
    let (one, other) = (ONE.as_bytes(), OTHER.as_bytes());
    let union = made_of_both(rt, alloc, "union", one, other)?;
    let turned = made_of_both(rt, alloc, "union", other, one)?;
    let doubled = made_of_both(rt, alloc, "union", one, one)?;
    let normal = made_of(rt, alloc, "normal", &union)?;
    Ok(
        normal.as_slice() == union.as_slice()
            && have_one_series(rt, alloc, &union, &turned, TREES)?
            && have_one_series(rt, alloc, &doubled, one, TREES)?,
    )
}

// The order of the files is no matter for the series, and a union is its own normal form.
#[test]
fn unions_have_one_series_in_either_order(rt: HostRuntime) -> Result<(), Fail> {
    assert!(rt; unions_hold(&rt, rt.alloc())?);
    Ok(())
}

const UNTIDY: &str =
    "q\np -> g(u u)\nq -> g(q r) # 1\nq -> p\nq -> f(a) # 2\nq -> a # 3\nr -> b # 1\nr -> q # 4\np -> b # 1\nu -> f(u)\nv -> a\n";

fn trims_hold<R: Threads + Wait + Sync>(rt: &R, alloc: Global) -> Result<bool, Fail> {
    let untidy = UNTIDY.as_bytes();
    let trimmed = made_of(rt, alloc, "trim", untidy)?;
    let again = made_of(rt, alloc, "trim", &trimmed)?;
    let through = made_of(rt, alloc, "through", untidy)?;
    let after = made_of(rt, alloc, "through", &trimmed)?;
    let normal = made_of(rt, alloc, "normal", &trimmed)?;
    Ok(
        again.as_slice() == trimmed.as_slice()
            && after.as_slice() == through.as_slice()
            && have_one_series(rt, alloc, &trimmed, untidy, TREES)?
            && have_one_series(rt, alloc, &normal, untidy, TREES)?,
    )
}

// What is trimmed twice is trimmed, and has the series and the through costs.
#[test]
fn trimmed_grammars_are_trimmed(rt: HostRuntime) -> Result<(), Fail> {
    assert!(rt; trims_hold(&rt, rt.alloc())?);
    Ok(())
}

fn runs_hold<R: Threads + Wait + Sync>(rt: &R, alloc: Global) -> Result<bool, Fail> {
    let transducer = made_of(rt, alloc, "runs", ONE.as_bytes())?;
    let words = ["-m", "boolean", "domain", "G"];
    let derivations = text_of(rt, alloc, &words, &transducer, &[])?;
    let outputs = made_of_both(rt, alloc, "forward", &derivations, &transducer)?;
    have_one_series(rt, alloc, &outputs, ONE.as_bytes(), TREES)
}

// All derivations, at no cost, are turned into the trees of the grammar at their costs.
#[test]
fn derivations_lead_back_to_the_grammar(rt: HostRuntime) -> Result<(), Fail> {
    assert!(rt; runs_hold(&rt, rt.alloc())?);
    Ok(())
}

// As `invert` writes it: variables are numbered by the pairs of the other side.
const TURNING: &str =
    "t\nt.h(x0: x1:) -> g(t.x1 u.x0) # 1\nt.k(x0:) -> f(f(t.x0)) # 2\nt.l(k(x0:)) -> f(u.x0) # 0\nu.d -> b # 1\nt.c -> a # 0\nu.c -> a # 2\n";

const TURNED: &str = "c\nd\nk(c)\nl(k(c))\nh(c c)\nh(d c)\nh(d h(d c))\nk(h(c k(c)))\nh(d d)\n";

fn inverses_hold<R: Threads + Wait + Sync>(rt: &R, alloc: Global) -> Result<bool, Fail> {
    let turning = TURNING.as_bytes();
    let inverse = made_of(rt, alloc, "invert", turning)?;
    let back = made_of(rt, alloc, "invert", &inverse)?;
    let inputs = made_of_both(rt, alloc, "backward", turning, ONE.as_bytes())?;
    let outputs = made_of_both(rt, alloc, "forward", ONE.as_bytes(), &inverse)?;
    Ok(back.as_slice() == turning && have_one_series(rt, alloc, &inputs, &outputs, TURNED)?)
}

// The inverse of the inverse is the file, and what is read backward is what the inverse puts out.
#[test]
fn inverses_turn_back(rt: HostRuntime) -> Result<(), Fail> {
    assert!(rt; inverses_hold(&rt, rt.alloc())?);
    Ok(())
}

// All trees over the labels of the right sides.
const ALL: &str = "s\ns -> g(s s)\ns -> f(s)\ns -> a\ns -> b\n";

fn domains_hold<R: Threads + Wait + Sync>(rt: &R, alloc: Global) -> Result<bool, Fail> {
    let turning = TURNING.as_bytes();
    let domain = made_of(rt, alloc, "domain", turning)?;
    let inputs = made_of_both(rt, alloc, "backward", turning, ALL.as_bytes())?;
    have_one_series(rt, alloc, &domain, &inputs, TURNED)
}

// The domain of a nondeleting transducer is what it turns into any tree.
#[test]
fn domains_are_the_inputs_of_all_trees(rt: HostRuntime) -> Result<(), Fail> {
    assert!(rt; domains_hold(&rt, rt.alloc())?);
    Ok(())
}

// The first rule leaves x1 out, and of the second x1 must be b; the last one leaves out both.
const LEAVING: &str =
    "t\nt.A(x0: x1:) -> B(u.x0) # 1\nt.A(x0: x1:b) -> u.x0 # 3\nt.b -> e # 2\nu.a -> d\nu.C(A(x0: x1:)) -> e\n";

// Trees over the labels of its left sides, each with what is written where it has no cost.
static ASKED: [(&str, &str); 9] = [
    ("a\n", "a # none\n"),
    ("b\n", "b # none\n"),
    ("A(a a)\n", "A(a a) # none\n"),
    ("A(a b)\n", "A(a b) # none\n"),
    ("A(b a)\n", "A(b a) # none\n"),
    ("A(C(A(a b)) C(a))\n", "A(C(A(a b)) C(a)) # none\n"),
    ("A(C(a) b)\n", "A(C(a) b) # none\n"),
    ("C(A(a b))\n", "C(A(a b)) # none\n"),
    ("A(A(a b) b)\n", "A(A(a b) b) # none\n"),
];

// Whether a tree has a cost in the domain exactly where it has an output.
fn is_read_where_it_has_outputs<R: Threads + Wait + Sync>(
    rt: &R,
    alloc: Global,
    domain: &[u8],
    asked: &(&str, &str),
) -> Result<bool, Fail> {
    let tree = asked.0.as_bytes();
    let weighed = made_of_both(rt, alloc, "weigh", domain, tree)?;
    let outputs = made_of_both(rt, alloc, "image", tree, LEAVING.as_bytes())?;
    let is_read = weighed.as_slice() != asked.1.as_bytes();
    Ok(is_read == (outputs.as_slice() != "q0\n".as_bytes()))
}

#[test]
fn trees_are_read_where_they_have_outputs(rt: HostRuntime) -> Result<(), Fail> {
    let domain = made_of(&rt, rt.alloc(), "domain", LEAVING.as_bytes())?;
    for asked in &ASKED {
        assert!(rt; is_read_where_it_has_outputs(&rt, rt.alloc(), &domain, asked)?);
    }
    Ok(())
}

// What a run of an operation in Boolean writes over two files.
fn boolean_of_both<R: Threads + Wait + Sync>(
    rt: &R,
    alloc: Global,
    operation: &str,
    first: &[u8],
    second: &[u8],
) -> Result<Vec<u8>, Fail> {
    text_of(
        rt,
        alloc,
        &["-m", "boolean", operation, "G", "T"],
        first,
        second,
    )
}

// Whether the trees of a grammar that have a run in another, and those that have none, are together
// those of the grammar, and no tree is of both kinds. The other has no weights, so in minplus the
// costs are those of the grammar too.
fn parts_hold<R: Threads + Wait + Sync>(
    rt: &R,
    alloc: Global,
    one: &[u8],
    other: &[u8],
) -> Result<bool, Fail> {
    let without = boolean_of_both(rt, alloc, "difference", one, other)?;
    let with = boolean_of_both(rt, alloc, "intersect", one, other)?;
    let both = boolean_of_both(rt, alloc, "union", &without, &with)?;
    let compared = made_of_both(rt, alloc, "compare", &both, one)?;
    let shared = boolean_of_both(rt, alloc, "intersect", &without, other)?;
    let dear = made_of_both(rt, alloc, "difference", one, other)?;
    let rest = made_of_both(rt, alloc, "intersect", one, other)?;
    let again = made_of_both(rt, alloc, "union", &dear, &rest)?;
    Ok(
        compared.as_slice() == "same\n".as_bytes()
            && shared.as_slice() == "q0\n".as_bytes()
            && have_one_series(rt, alloc, &again, one, TREES)?,
    )
}

// The grammar of above without weights.
const FREE: &str = "q\nq -> g(q r)\nq -> f(q)\nq -> a\nr -> b\nr -> q\n";

// Grammars without weights; the last has no tree.
static SUPPORTS: [&str; 5] = [
    "r\nr -> f(f(r))\nr -> a\nr -> g(a b)\n",
    "r\nr -> g(r r)\nr -> f(r)\nr -> a\n",
    "r\nr -> g(r r)\nr -> f(r)\nr -> b\n",
    "r\nr -> r\nr -> g(r s)\nr -> g(s r)\ns -> b\nr -> a\n",
    "r\nr -> f(r)\n",
];

#[test]
fn differences_and_intersections_part_a_grammar(rt: HostRuntime) -> Result<(), Fail> {
    for support in &SUPPORTS {
        assert!(rt; parts_hold(&rt, rt.alloc(), ONE.as_bytes(), support.as_bytes())?);
        assert!(rt; parts_hold(&rt, rt.alloc(), support.as_bytes(), FREE.as_bytes())?);
    }
    Ok(())
}

// Whether nothing is left of a grammar less another.
fn has_no_difference<R: Threads + Wait + Sync>(
    rt: &R,
    alloc: Global,
    one: &[u8],
    other: &[u8],
) -> Result<bool, Fail> {
    let left = boolean_of_both(rt, alloc, "difference", one, other)?;
    Ok(left.as_slice() == "q0\n".as_bytes())
}

// Whether two grammars have the same trees exactly where nothing is left of either less the other.
fn is_same_without_differences<R: Threads + Wait + Sync>(
    rt: &R,
    alloc: Global,
    one: &[u8],
    other: &[u8],
) -> Result<bool, Fail> {
    let compared = made_of_both(rt, alloc, "compare", one, other)?;
    let is_same = compared.as_slice() == "same\n".as_bytes();
    let nothing_left = has_no_difference(rt, alloc, one, other)?
        && has_no_difference(rt, alloc, other, one)?;
    Ok(is_same == nothing_left)
}

// The second has the trees of the first; the third has them all, and more.
static COMPARED: [&str; 3] = [
    "q\nq -> f(q)\nq -> a\n",
    "q\nq -> f(p)\nq -> a\np -> f(q)\np -> a\n",
    "q\nq -> f(q)\nq -> a\nq -> b\n",
];

#[test]
fn grammars_are_the_same_where_nothing_is_left(rt: HostRuntime) -> Result<(), Fail> {
    for one in &COMPARED {
        assert!(rt; has_no_difference(&rt, rt.alloc(), one.as_bytes(), one.as_bytes())?);
        for other in &COMPARED {
            assert!(rt;
                is_same_without_differences(&rt, rt.alloc(), one.as_bytes(), other.as_bytes())?
            );
        }
    }
    Ok(())
}

// How many lines a text has.
fn lines_of(text: &[u8]) -> usize {
    text.iter().filter(|byte| **byte == b'\n').count()
}

// A grammar; the first two lines of its counts; how many rules of it are in complete runs; the last
// two lines of the counts of its deterministic form; and how many trees it has.
type Counted = (&'static str, &'static str, usize, &'static str, usize);

static COUNTED: [Counted; 6] = [
    (
        "q\nq -> f(p) # 1\nq -> f(r) # 3\np -> a # 2\nr -> a # 1\n",
        "states 3\nrules 4\n",
        4,
        "runs 1\ntrees 1\n",
        1,
    ),
    (
        "q\nq -> f(p p)\nq -> f(p r)\np -> a\np -> b\nr -> a\nu -> c\nq -> v\nv -> f(v)\n",
        "states 3\nrules 5\n",
        5,
        "runs 4\ntrees 4\n",
        4,
    ),
    (
        "q\nq -> r # 0\nr -> q # 0\nr -> a # 4\n",
        "states 2\nrules 3\n",
        3,
        "runs 1\ntrees 1\n",
        1,
    ),
    (
        "q\nq -> g(p g(p a)) # 7\np -> f(r)\np -> r\nr -> a\nr -> b\nr -> a # 1\n",
        "states 3\nrules 6\n",
        6,
        "runs 16\ntrees 16\n",
        16,
    ),
    (
        "q\nq -> f(p) # 1000000000000000\np -> a\np -> b # 1\n",
        "states 2\nrules 3\n",
        3,
        "runs 2\ntrees 2\n",
        2,
    ),
    (
        "q\nq -> f(q)\np -> a\n",
        "states 1\nrules 0\n",
        0,
        "runs 0\ntrees 0\n",
        0,
    ),
];

// Whether the first two counts of a grammar are those of what `trim` keeps of it in Boolean, and it
// has the counts of the file.
fn counts_rules_of_trim<R: Threads + Wait + Sync>(
    rt: &R,
    alloc: Global,
    row: &Counted,
) -> Result<bool, Fail> {
    let counts = made_of(rt, alloc, "count", row.0.as_bytes())?;
    let words = ["-m", "boolean", "trim", "G"];
    let trimmed = text_of(rt, alloc, &words, row.0.as_bytes(), &[])?;
    let again = made_of(rt, alloc, "count", &trimmed)?;
    Ok(
        counts.as_slice() == again.as_slice()
            && counts.as_slice().starts_with(row.1.as_bytes())
            && lines_of(&trimmed) == row.2.saturating_add(1),
    )
}

// Whether the deterministic form of a grammar has as many runs as trees, and `kbest` lists as many
// trees in Boolean.
fn counts_trees<R: Threads + Wait + Sync>(
    rt: &R,
    alloc: Global,
    row: &Counted,
) -> Result<bool, Fail> {
    let words = ["-m", "boolean", "determinize", "G"];
    let deterministic = text_of(rt, alloc, &words, row.0.as_bytes(), &[])?;
    let counts = made_of(rt, alloc, "count", &deterministic)?;
    let words = ["-m", "boolean", "-k", "100", "kbest", "G"];
    let listed = text_of(rt, alloc, &words, row.0.as_bytes(), &[])?;
    Ok(counts.as_slice().ends_with(row.3.as_bytes()) && lines_of(&listed) == row.4)
}

#[test]
fn counts_are_those_of_what_is_listed(rt: HostRuntime) -> Result<(), Fail> {
    for row in &COUNTED {
        assert!(rt; counts_rules_of_trim(&rt, rt.alloc(), row)?);
        assert!(rt; counts_trees(&rt, rt.alloc(), row)?);
    }
    Ok(())
}

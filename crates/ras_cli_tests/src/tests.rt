ghost use Rattle.ras_outside.specs.Told.{untold};

use ras_cli::verify_quiet;
use ras_outside::{LoadFault, MemShelf, MemSink, Shelf};
use std::alloc::{AllocError, Global};
use std::process::Abort;
use std::test::Fail;
use std::thread::Threads;

/// A text, as pieces that stand so many times; in a piece `#` stands for the number of the turn.
type Pieces = &'static [(u32, &'static str)];

/// The words, the specification or bundle `f`, the evidence `e`, the status, and the output.
type Row = (&'static str, Pieces, &'static str, u8, Pieces);

/// Any user applies for any job, where its owner alone should.
const HIRING: Pieces = &[(
    1,
    "system hiring; sort User; sort Job; total owner : Job -> User; relation apps (job : Job, who : User);
step apply { row a : apps; param j : Job; param u : User; when a.job = undef and j != undef and u != undef; a.job := j; a.who := u; }
step withdraw { row a : apps; when a.job != undef; a.job := undef; a.who := undef; }
unsafe { row a : apps; when a.who != owner(a.job); }",
)];

const DESK: Pieces = &[(
    1,
    "system desk; sort U; const on : U; const off : U; var m : U = off; relation seat (s : U);
step take { row a : seat; when a.s = undef; a.s := on; }
step clear { row a : seat; when a.s = on; m := on; each q : seat { if q.s = on { q.s := off; } if q.s = undef { q.s := on; } } }
unsafe { row a : seat; row b : seat; when a.s = off and b.s = on; }",
)];

const GROW: Pieces = &[(
    1,
    "system grow; sort A; var x : A; step pick { param p : A; when p != undef; x := p; } unsafe { when x != undef; }",
)];

const STILL: Pieces = &[(
    1,
    "system s; sort A; var x : A; unsafe { when x != undef; }",
)];

const TWO: Pieces = &[(
    1,
    "system two; sort A; const a : A; const b : A; const c : A; var x : A = a; step go { when x = b; x := c; } unsafe { when x = c; }",
)];

const BUNDLE: Pieces = &[(
    1,
    "bundle 1\nsorts 1\nfunctions 0\nconsts 0\nvariables 1\nvariable 0 none\ntransitions 0\nunsafe 1\ncube 0 1 v0!=u0\nevidence 1 safe\nformulas 1\ncube 0 1 v0!=u0\ntrees 2\ntree leaf\ntree split 0 0 1 leaf\nend\n",
)];

const DECLARATIONS: Pieces = &[
    (1, "system w;\nsort A;\n"),
    (256, "const c# : A;\n"),
    (64, "var x# : A;\n"),
];

const CANONICAL: Pieces = &[(
    1,
    "system p;\nsort A;\nsort B;\nnullable n : B -> A;\nvar x : A;\nunsafe {\n  when n(undef) != x or true;\n}\n",
)];

const USAGE: Pieces = &[(
    1,
    "REFUSED words\nusage:\n  rasprove check FILE EVIDENCE\n  rasprove check BUNDLE\n  rasprove replay FILE EVIDENCE\n  rasprove print FILE\n",
)];

/// Each kind of answer, worked out by hand.
const ROWS: &[Row] = &[
    (
        "check f e",
        HIRING,
        "evidence 1 unsafe\nsizes 2 2 1\ntables 1\ntable 1 1\nconstants 0\nvars 0\nrelations 1\nrows 1\nrow 2 0 0\nsteps 1\nstep 0 1 0 2 1 2\nend\n",
        0,
        &[(1, "VALID UNSAFE\n")],
    ),
    (
        "check f e",
        GROW,
        "evidence 1 unsafe\nsizes 1 0\ntables 0\nconstants 0\nvars 1 0\nrelations 0\nsteps 1\nstep 0 0 1 1\nend\n",
        31,
        &[(1, "INVALID step 0 VALUE_OUTSIDE\n")],
    ),
    (
        "check f e",
        TWO,
        "evidence 1 safe\nformulas 2\ncube 0 1 v0=c2\ncube 0 1 v0=c1\ntrees 5\ntree leaf\ntree leaf\ntree split 0 0 1 leaf\ntree split 1 0 1 leaf\ntree leaf\nend\n",
        0,
        &[(1, "VALID SAFE\n")],
    ),
    (
        "print f",
        &[(
            1,
            "system s;\nsort A;\nsort B;\ntotal f : A -> B;\ntotal g : B -> A;\n",
        )],
        "",
        30,
        &[(1, "REFUSED file AT 50 CYCLE B A\n")],
    ),
    (
        "print f",
        &[
            (1, "system w;\nsort A;\nvar x : A;\nunsafe { when x = undef"),
            (64, " or x = undef"),
            (1, "; }"),
        ],
        "",
        30,
        &[(1, "REFUSED file AT 875 TOO_WIDE\n")],
    ),
    (
        "print f",
        &[
            (1, "system w;\nsort A;\nvar x : A;\nunsafe { when x = undef"),
            (63, " or x = undef"),
            (1, "; }"),
        ],
        "",
        0,
        &[
            (
                1,
                "system w;\nsort A;\nvar x : A;\nunsafe {\n  when x = undef",
            ),
            (63, " or x = undef"),
            (1, ";\n}\n"),
        ],
    ),
    (
        "check f e",
        STILL,
        "evidence 1 safe\nformulas 1\ncube 0 1 v0!=u0\ntrees 2\ntree leaf\ntree split 0 0 0\nend\n",
        31,
        &[(1, "INVALID obligation 1 node 0 CHILDREN\n")],
    ),
    (
        "check f e",
        STILL,
        "evidence 1 safe\nformulas 1\ncube 0 1 v0!=u0\ntrees 2\ntree leaf\ntree leaf\nend\n",
        31,
        &[(1, "INVALID obligation 1 node 0 NO_CLASH\n")],
    ),
    (
        "check f e",
        STILL,
        "evidence 1 safe\nformulas 1\ncube 0 1 v0",
        31,
        &[(1, "REFUSED evidence LINE 3 ENDED\n")],
    ),
    (
        "replay f e",
        DESK,
        "evidence 1 unsafe\nsizes 1 2\ntables 0\nconstants 2 1 2\nvars 1 2\nrelations 1\nrows 3\nrow 1 0\nrow 1 0\nrow 1 0\nsteps 3\nstep 0 1 0 0\nstep 0 1 1 0\nstep 1 1 1 0\nend\n",
        0,
        &[(
            1,
            "state 0 vars 1 2 rows 3 0 0 0\nstate 1 vars 1 2 rows 3 1 0 0\nstate 2 vars 1 2 rows 3 1 1 0\nstate 3 vars 1 1 rows 3 2 1 1\nmeets 0 rows 2 0 1\n",
        )],
    ),
    (
        "replay f e",
        DESK,
        "evidence 1 unsafe\nsizes 1 2\ntables 0\nconstants 2 1 2\nvars 1 2\nrelations 1\nrows 3\nrow 1 0\nrow 1 0\nrow 1 0\nsteps 3\nstep 0 1 0 0\nstep 0 1 0 0\nstep 1 1 1 0\nend\n",
        31,
        &[(1, "INVALID step 1 GUARD_FALSE\n")],
    ),
    ("print f", &[], "", 30, &[(1, "REFUSED file AT 0 SYNTAX\n")]),
    (
        "print f",
        &[(1_048_577, " ")],
        "",
        32,
        &[(1, "REFUSED long f\n")],
    ),
    (
        "print f",
        &[(
            1,
            "system p;sort A;sort B;nullable n:B->A;var x:A;unsafe{when n(undef)!=x or true;}",
        )],
        "",
        0,
        CANONICAL,
    ),
    ("print f", CANONICAL, "", 0, CANONICAL),
    ("check f", BUNDLE, "", 0, &[(1, "VALID SAFE\n")]),
    ("", &[], "", 40, USAGE),
];

/// The number of a turn in decimal digits, for each `#`.
fn add(alloc: Global, text: &mut Vec<u8>, piece: &str, number: u32) -> Result<(), AllocError> {
    for byte in piece.bytes() {
        if byte == b'#' {
            let digits = format!(in alloc; "{number}")?;
            text.extend_from_slice(digits.as_bytes())?;
        } else {
            text.push(byte)?;
        }
    }
    Ok(())
}

fn text_of(alloc: Global, pieces: Pieces) -> Result<Vec<u8>, AllocError> {
    let mut text = Vec::new(alloc);
    for (times, piece) in pieces {
        for number in 0..*times {
            add(alloc, &mut text, *piece, number)?;
        }
    }
    Ok(text)
}

fn words_of(alloc: Global, line: &str) -> Result<Vec<String>, AllocError> {
    let mut words = Vec::new(alloc);
    for word in line.split_whitespace() {
        words.push(String::from_str(alloc, word)?)?;
    }
    Ok(words)
}

/// A shelf that holds `f` and `e`, and whose second load fails where it should.
fn shelf_of(
    alloc: Global,
    file: Pieces,
    evidence: &str,
    fails: bool,
) -> Result<MemShelf, AllocError> {
    let file = (String::from_str(alloc, "f")?, text_of(alloc, file)?);
    let evidence = (
        String::from_str(alloc, "e")?,
        Vec::from_slice(alloc, evidence.as_bytes())?,
    );
    let mut failing = Vec::new(alloc);
    if fails {
        failing.push(2)?;
    }
    Ok(MemShelf::new(vec![in alloc; file, evidence]?, failing))
}

/// Whether the words end over this shelf with this status and output.
fn ends<R: Threads + Sync, H: Shelf>(
    rt: &R,
    alloc: Global,
    line: &str,
    shelf: &mut H,
    status: u8,
    output: &[u8],
) -> Result<bool, AllocError> {
    let words = words_of(alloc, line)?;
    let mut out = MemSink::new(alloc, 8_192, Vec::new(alloc))?;
    let ended = verify_quiet(rt, alloc, &words, shelf, &mut out);
    Ok(ended == status && out.written() == output)
}

fn expect<R: Threads + Sync + Abort>(rt: &R, alloc: Global, row: Row) -> Result<(), AllocError> {
    let (line, file, evidence, status, output) = row;
    let mut shelf = shelf_of(alloc, file, evidence, false)?;
    let output = text_of(alloc, output)?;
    assert!(rt;
        ends(rt, alloc, line, &mut shelf, status, &output)?,
        "{line}"
    );
    Ok(())
}

#[test]
fn each_kind_of_answer_comes_as_it_was_worked_out(rt: HostRuntime) -> Result<(), Fail> {
    for row in ROWS {
        expect(&rt, rt.alloc(), *row)?;
    }
    Ok(())
}

#[test]
fn a_load_that_fails_is_told_with_its_name(rt: HostRuntime) -> Result<(), Fail> {
    let alloc = rt.alloc();
    let mut shelf = shelf_of(alloc, &[(1, "system s; sort A;")], "", true)?;
    assert!(rt; ends(&rt, alloc, "check f e", &mut shelf, 50, b"REFUSED read e\n")?);
    Ok(())
}

/// A file of 4,826 bytes is its own canonical text; the second piece of it is cut off after ten bytes.
#[test]
fn a_put_that_fails_leaves_a_front_of_the_text(rt: HostRuntime) -> Result<(), Fail> {
    let alloc = rt.alloc();
    let content = text_of(alloc, DECLARATIONS)?;
    assert_eq!(rt; content.len(), 4_826);
    let words = words_of(alloc, "print f")?;
    let mut shelf = shelf_of(alloc, DECLARATIONS, "", false)?;
    let mut out = MemSink::new(alloc, 5_000, vec![in alloc; (2, 10)]?)?;
    assert_eq!(rt; verify_quiet(&rt, alloc, &words, &mut shelf, &mut out), 51);
    assert_eq!(rt; out.written().len(), 4_106);
    assert!(rt; content.starts_with(out.written()));
    Ok(())
}

/// A shelf that tells nothing, and on which every file is too long.
#[derive(Drop)]
struct LongShelf;

impl Shelf for LongShelf {
    ghost told = { λ _ _. untold };

    ghost faults = { λ _ _. 0 };

    fn load(&mut self, _alloc: Global, _name: &str, _most: u64) -> Result<Vec<u8>, LoadFault> {
        Err(LoadFault::TooLong)
    }
}

#[test]
fn a_bundle_that_is_too_long_is_told_with_its_name(rt: HostRuntime) -> Result<(), Fail> {
    let alloc = rt.alloc();
    assert!(rt;
        ends(
            &rt,
            alloc,
            "check b",
            &mut LongShelf,
            32,
            b"REFUSED long b\n"
        )?
    );
    Ok(())
}

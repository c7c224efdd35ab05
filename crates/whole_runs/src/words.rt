//! Lines and what they ask for.

use std::alloc::{AllocError, Global};
use vata_words::{CheckRequest, Dir, Encoding, Request, WordFault, check_request_of, request_of};

fn words_of(alloc: Global, line: &str) -> Result<Vec<String>, AllocError> {
    let mut words = Vec::new(alloc);
    for word in line.split_whitespace() {
        words.push(String::from_str(alloc, word)?)?;
    }
    Ok(words)
}

#[test]
fn each_line_asks_for_its_request(rt: HostRuntime) -> Result<(), AllocError> {
    let (encoding, trim) = (Encoding::Expl, false);
    for (line, want) in [
        ("bench 3", Request::Bench { encoding, n: 3 }),
        (
            "load ALL",
            Request::Load {
                encoding,
                trim,
                file: 1,
            },
        ),
        (
            "load -p ALL",
            Request::Load {
                encoding,
                trim: true,
                file: 2,
            },
        ),
        (
            "union A B",
            Request::Union {
                encoding,
                trim,
                first: 1,
                second: 2,
            },
        ),
        (
            "-p isect A B",
            Request::Isect {
                encoding,
                trim: true,
                first: 2,
                second: 3,
            },
        ),
        (
            "sim A",
            Request::Sim {
                encoding,
                dir: Dir::Down,
                file: 1,
            },
        ),
        (
            "-r bdd red A",
            Request::Red {
                encoding: Encoding::Bdd,
                file: 3,
            },
        ),
        (
            "incl A B",
            Request::Incl {
                encoding,
                dir: Dir::Up,
                sim: false,
                budget: 100_000,
                first: 1,
                second: 2,
            },
        ),
        (
            "-o dir=up,sim=yes,budget=7 incl A B",
            Request::Incl {
                encoding,
                dir: Dir::Up,
                sim: true,
                budget: 7,
                first: 3,
                second: 4,
            },
        ),
    ] {
        let words = words_of(rt.alloc(), line)?;
        assert_eq!(rt; request_of(&words), Ok(want), "{line}");
    }
    Ok(())
}

#[test]
fn each_other_line_has_its_fault(rt: HostRuntime) -> Result<(), AllocError> {
    for (line, fault) in [
        ("", WordFault::NoCommand),
        ("load -r", WordFault::MissingValue { at: 2 }),
        ("lod ALL", WordFault::UnknownWord { at: 1 }),
        ("-p sim ALL", WordFault::NotForThis { at: 1 }),
        ("incl ALL", WordFault::FileCount { found: 1 }),
        ("incl -o budget=0 ALL ALL", WordFault::BadSetting { at: 3 }),
        ("-p -p load ALL", WordFault::Repeated { at: 2 }),
        ("-r bdd -r", WordFault::Repeated { at: 3 }),
        ("bench 0", WordFault::BadSetting { at: 2 }),
        ("-o dir=up,dir=up incl A B", WordFault::BadSetting { at: 2 }),
        ("-o budget=1 sim A", WordFault::NotForThis { at: 1 }),
        ("--help", WordFault::UnknownWord { at: 1 }),
        ("load -- A", WordFault::UnknownWord { at: 2 }),
    ] {
        let words = words_of(rt.alloc(), line)?;
        assert_eq!(rt; request_of(&words), Err(fault), "{line}");
    }
    Ok(())
}

#[test]
fn a_check_takes_three_words(rt: HostRuntime) -> Result<(), AllocError> {
    for (line, want) in [
        (
            "A B C",
            Ok(CheckRequest {
                first: 0,
                second: 1,
                certificate: 2,
            }),
        ),
        ("-x B C", Err(WordFault::UnknownWord { at: 1 })),
        ("A B", Err(WordFault::FileCount { found: 2 })),
    ] {
        let words = words_of(rt.alloc(), line)?;
        assert_eq!(rt; check_request_of(&words), want, "{line}");
    }
    Ok(())
}

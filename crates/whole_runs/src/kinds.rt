//! A certificate of each kind is read, fits, is printed and judged.

use incl_certificate::{CertError, Certificate, CheckError, Verdict, check, fits, print, read};
use std::alloc::Global;
use std::process::Abort;
use std::test::Fail;
use ta_model::Listed;
use timbuk_text::Reader;

/// One leaf alone: one state, one rule.
const ONLY: &[u8] = b"Ops a:0 Automaton only States r Final States r Transitions a -> r\n";

fn only(rt: &impl Abort, alloc: Global) -> Listed {
    let mut reader = Reader::new(alloc);
    reader.feed(ONLY).expect(rt, "memory");
    reader.finish().expect(rt, "an automaton")
}

fn read_of(
    rt: &impl Abort,
    alloc: Global,
    text: &[u8],
    a: &Listed,
) -> Result<Certificate, CertError> {
    assert!(rt; text.len() < 1000);
    read(alloc, text, a, a)
}

/// Each kind, for the automaton of one leaf and itself: it is read, fits, is printed byte for byte, and
/// is judged.
#[test]
fn each_kind_is_printed_as_it_is_read(rt: HostRuntime) -> Result<(), Fail> {
    let alloc = rt.alloc();
    let a = only(&rt, alloc);
    for (text, wanted) in [
        (
            b"included\ncertificate 1 up\nleft identity\nright identity\npairs 1\nr : r\n".as_slice(),
            Ok(Verdict::Included),
        ),
        (
            b"included\ncertificate 1 down\nboth identity\npairs 1\nr : r\n".as_slice(),
            Ok(Verdict::Included),
        ),
        // The step of the leaf is the set of r and no empty one.
        (
            b"undecided\ncertificate 1 up-trail\nleft identity\nright identity\nbudget 1\nentries 2\nr : r : a\nr : : a\n".as_slice(),
            Err(CheckError::Fails {
                condition: 8,
                place: 2,
            }),
        ),
        // The leaf has a tuple under r, and the split no place for it.
        (
            b"undecided\ncertificate 1 down-trail\nboth identity\nbudget 1\nentries 2\npair r : r : root\nsplit 1 : a :\n".as_slice(),
            Err(CheckError::Fails {
                condition: 8,
                place: 2,
            }),
        ),
        (
            b"not included\ncertificate 1 tree\nnodes 1\n1 a\n".as_slice(),
            Err(CheckError::Fails {
                condition: 7,
                place: 1,
            }),
        ),
    ] {
        let certificate = read_of(&rt, alloc, text, &a).expect(&rt, "a certificate");
        assert!(rt; fits(&a, &a, &certificate));
        assert_eq!(rt; print(alloc, &a, &a, &certificate)?.as_slice(), text);
        assert_eq!(rt; check(alloc, &a, &a, &certificate), wanted);
    }
    Ok(())
}

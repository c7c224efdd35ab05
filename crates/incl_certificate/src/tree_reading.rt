//! Reading the certificate that is a tree.

ghost use Rattle.std.specs.Prelude.{◌≡◌, ◌<◌, IfOk, length};
ghost use Rattle.certificate_kinds.specs.Certificates.{FitsTree};
ghost use Rattle.incl_certificate.specs.Text.{ReadsTree, judged_tree, tree_text};

use crate::joint::joint_of;
use crate::printing::{answer, kind};
use crate::reading::CertError;
use std::alloc::Global;
use ta_model::Listed;
use witness_trees::{Nodes, NodesTextError};

/// The nodes of a certificate with this text.
pub(crate) fn read_tree(
    alloc: Global,
    text: &[u8],
    a: &Listed,
    b: &Listed,
) -> Result<Nodes, CertError>
    requires { length text.now < 4294967295 }
    ensures judged { ReadsTree a.now b.now result (judged_tree a.now b.now text.now) }
    ensures text { IfOk result (λ nodes. text.now ≡ tree_text nodes) }
    ensures fits { IfOk result (FitsTree a.now b.now) }
{
    let Some(rest) = text.strip_prefix(answer()) else {
        return Err(CertError::BadText { at: 0 });
    };
    let Some(lines) = rest.strip_prefix(kind()) else {
        return Err(CertError::BadText { at: 13 });
    };
    let Ok(symbols) = joint_of(alloc, a.symbols(), b.symbols()) else {
        return Err(CertError::Memory);
    };
    match witness_trees::read(alloc, lines, symbols.as_slice()) {
        Ok(nodes) => Ok(nodes),
        Err(NodesTextError::BadText { at }) => Err(CertError::BadText { at: 32 + at }),
        Err(NodesTextError::UnknownName { at }) => Err(CertError::UnknownName { at: 32 + at }),
        Err(NodesTextError::Memory) => Err(CertError::Memory),
    }
}

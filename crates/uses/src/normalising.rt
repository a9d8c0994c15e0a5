//! Makes a captured list canonical.

ghost use Rattle.std.specs.Prelude.{◌≡◌, ◌↔◌, None, ℕ, List, IfOk, IfErr, IsTrue};
ghost use Rattle.netlink_packet_route.specs.Frame.{frame_fault};
ghost use Rattle.netlink_packet_route.specs.Family.{table_of};
ghost use Rattle.netlink_packet_route.specs.Answers.{OnRewriteMemory};
ghost use Rattle.netlink_packet_route.specs.Rewrite.{RewriteAnswers};
ghost use Rattle.netlink_packet_route.specs.Table.{Canonical, Rewriting};

use netlink_packet_route::{Family, RewriteError, laws, link, rewrite};
use std::alloc::Global;

/// Re-encodes a list. Returns the re-encoded list, and whether the input was canonical, that is, whether both are
/// equal.
///
/// # Errors
///
/// As for `rewrite`.
pub fn normalised(
    alloc: Global,
    family: Family,
    bytes: &[u8],
) -> Result<(Vec<u8>, bool), RewriteError>
    ensures normal { IfOk result (λ done. Rewriting (table_of family) bytes.now done.0.items
        × (IsTrue done.1 ↔ Canonical (table_of family) bytes.now)) }
    ensures refused { IfErr result (λ error. RewriteAnswers (table_of family) bytes.now (Err error)) }
    ensures memory { OnRewriteMemory result (frame_fault bytes.now ≡ None) }
{
    let out = rewrite(alloc, family, bytes)?;
    let was_canonical = out.as_slice() == bytes;
    Ok((out, was_canonical))
}

/// Returns the list in canonical form, by re-encoding it twice.
///
/// # Errors
///
/// As for `rewrite`.
#[tactic(auto, using(crate::proofs::Fitting::converged, crate::proofs::Fitting::starts))]
pub fn canonical(alloc: Global, family: Family, bytes: &[u8]) -> Result<Vec<u8>, RewriteError>
    ensures canonical { IfOk result (λ out. Canonical (table_of family) out.items) }
    ensures second { IfOk result (λ out. (once : List ℕ)
        × Rewriting (table_of family) bytes.now once × Rewriting (table_of family) once out.items) }
    ensures refused { IfErr result (λ error. RewriteAnswers (table_of family) bytes.now (Err error)) }
    ensures memory { OnRewriteMemory result (frame_fault bytes.now ≡ None) }
{
    laws::second_rewriting();
    link::laws::one_reading();
    let once = rewrite(alloc, family, bytes)?;
    let twice = rewrite(alloc, family, &once)?;
    Ok(twice)
}

//! Groups of parts, by the numbers of the parts.

ghost use Rattle.std.specs.Prelude.{◌≡◌, ◌<◌, ◌≤◌, All, IfOk, OnOk, length};
ghost use Rattle.si_composing.specs.JoinedSignals.{max_parts};
ghost use Rattle.si_groups.specs.Groups as meaning;
ghost use Rattle.si_groups.specs.Loops.Between.{IsGroup};

use si_base::ids::NoMemory;
use si_graph::coded::Coded;
use std::alloc::Global;

/// Whether the graph has a signal of the name.
fn has_name(part: &Coded, name: &[u8]) -> bool
    ensures { result ≡ meaning.has_name part.now name.now }
{
    part.graph()
        .signals()
        .iter()
        .any(|x| x.name.bytes() == name)
}

/// Whether the two graphs share a signal.
pub fn share(one: &Coded, other: &Coded) -> bool
    ensures { result ≡ meaning.share one.now other.now }
{
    one.graph()
        .signals()
        .iter()
        .any(|x| has_name(other, x.name.bytes()))
}

/// Whether part `k` shares a signal with a member of the group.
fn touches(parts: &[Coded], group: &[u32], k: usize) -> bool
    requires within { All (λ i. i < length parts.now) group.now }
    requires part { k < length parts.now }
    ensures { result ≡ meaning.touches parts.now group.now k }
{
    for i in group {
        if share(&parts[*i as usize], &parts[k]) {
            return true;
        }
    }
    false
}

/// The group widened by all parts that share a signal with a member. It fails only where memory
/// runs out.
pub fn widened(alloc: Global, parts: &[Coded], group: &[u32]) -> Result<Vec<u32>, NoMemory>
    requires few { length parts.now ≤ max_parts }
    requires group { IsGroup parts.now group.now }
    ensures { IfOk result (λ wider. wider.items ≡ meaning.widened parts.now group.now) }
{
    let mut wider = Vec::new(alloc);
    for k in 0..parts.len() {
        if touches(parts, group, k) {
            wider.push(k as u32)?;
        }
    }
    Ok(wider)
}

/// Copies of the parts of the group. It fails only where memory runs out.
pub fn members(alloc: Global, parts: &[Coded], group: &[u32]) -> Result<Vec<Coded>, NoMemory>
    requires { IsGroup parts.now group.now }
    ensures { IfOk result (λ those. those.items ≡ meaning.members parts.now group.now) }
{
    let mut those = Vec::new(alloc);
    for i in group {
        those.push(parts[*i as usize].copy(alloc)?)?;
    }
    Ok(those)
}

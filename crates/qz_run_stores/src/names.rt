//! The names of a run's nodes.
ghost use Rattle.std.specs.Prelude.{◌≡◌, IfOk, IsTrue};
ghost use Rattle.qz_types.specs.Rows.{is_node};
ghost use Rattle.qz_seen.specs.Seen.{node_name};

use qz_types::{NoMemory, Text};
use std::alloc::Global;

/// The name of a node: `n1` of node 0, `n2` of node 1 and so on.
#[tactic(auto, using(crate::proofs::NodeNames::name_is, crate::proofs::NodeNames::valid_name))]
pub fn node_name(alloc: Global, node: u32) -> Result<Text, NoMemory>
    ensures name { IfOk result (λ name. name ≡ node_name node) }
    ensures valid { IfOk result (λ name. IsTrue (is_node name)) }
{
    let number = node as u64 + 1;
    let name = format!(in alloc; "n{number}")?;
    Ok(Text::from_string(name))
}

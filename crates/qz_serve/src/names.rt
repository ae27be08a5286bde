//! The names of a call's nodes.
ghost use Rattle.std.specs.Prelude.{◌≡◌, IsTrue, IfOk};
ghost use Rattle.std.specs.List.{All};
ghost use Rattle.qz_types.specs.Rows.{is_node};
ghost use Rattle.qz_serve.specs.Ours.{node_names, main_name};

use qz_run_stores::node_name;
use qz_types::{NoMemory, Text};
use std::alloc::Global;

/// The names of the nodes of a call: of those that work in threads, in order, and of the one that works at the end.
#[derive(Drop)]
pub(crate) struct Ours {
    pub(crate) nodes: Vec<Text>,
    pub(crate) main: Text,
    ghost valid: { All (λ name. IsTrue (is_node name)) nodes.items },
    ghost main_valid: { IsTrue (is_node main) },
}

impl Ours {
    /// Those of a call with so many nodes.
    pub(crate) fn new(alloc: Global, nodes: u32) -> Result<Ours, NoMemory>
        ensures { IfOk result (λ ours. (ours.nodes.items ≡ node_names nodes) × (ours.main ≡ main_name)) }
    {
        Ok(Ours {
            nodes: node_names(alloc, nodes)?,
            main: Text::from_str(alloc, "main")?,
        })
    }
}

fn node_names(alloc: Global, nodes: u32) -> Result<Vec<Text>, NoMemory>
    ensures names { IfOk result (λ names. names.items ≡ node_names nodes) }
    ensures valid { IfOk result (λ names. All (λ name. IsTrue (is_node name)) names.items) }
{
    let mut names = Vec::new(alloc);
    for node in 0..nodes {
        names.push(node_name(alloc, node)?)?;
    }
    Ok(names)
}

//! Pictures of the states of a policy, in the language of graphviz.

use crate::edges::{Edges, Source};
use crate::labels::put_label;
use ifs_lex::tokens;
use ifs_policy::Policy;
use ifs_terminal::Draft;
use std::alloc::{AllocError, Global};

/// A policy's picture: a node for each state, with two borders for the initial one, and an edge for each `set-state`, with its
/// conditions. Those outside any state start at one node.
pub(crate) fn picture_of(
    alloc: Global,
    text: &str,
    defs: &[(&str, &str)],
    policy: &Policy,
) -> Result<String, AllocError> {
    // the text of a policy has tokens, unless an allocation fails
    let Ok(tokens) = tokens(alloc, text, defs) else {
        return Err(AllocError);
    };
    let edges = Edges::of(alloc, Source { text, policy }, tokens.as_slice())?;
    let mut picture = Draft::new(alloc);
    picture.put("digraph policy {\n\tnode [shape=box]\n");
    put_states(&mut picture, policy);
    put_edges(&mut picture, &edges);
    picture.put("}\n");
    picture.into_text()
}

/// Adds a line for each state.
fn put_states(picture: &mut Draft, policy: &Policy) {
    let states = &policy.tables().states;
    for index in 0..states.len() {
        if let Some(name) = states.get(index) {
            let initial = index == usize::from(policy.initial().0);
            put_state(picture, index, name.as_str(), initial);
        }
    }
}

fn put_state(picture: &mut Draft, index: usize, name: &str, initial: bool) {
    picture.put("\ts");
    picture.add(index);
    picture.put(" [label=\"");
    put_label(picture, name);
    picture.put(if initial {
        "\", peripheries=2]\n"
    } else {
        "\"]\n"
    });
}

/// Adds the edges, after the node at which those outside any state start.
fn put_edges(picture: &mut Draft, edges: &Edges) {
    if edges.from_any {
        picture.put("\tany [label=\"any state\", style=dashed]\n");
    }
    picture.put(edges.lines.as_str());
    picture.needs(&edges.lines);
}

// A second judge: from the last node to the first, which nodes allow the build's values. It uses nothing of the library. Assumes
// nothing.
use crate::checker::{Due, Lists, rules};
use numbers::{difference, entry, put, sum};

// The first value outside its domain.
fn first_bad_value(domains: &[u32], build: &[u32]) -> Option<usize> {
    build
        .iter()
        .enumerate()
        .position(|(i, value)| entry(domains, i) <= *value as usize)
}

fn check(lists: Lists<'_>, build: &[u32]) -> Result<(), Due> {
    lists.check()?;
    rules(
        8,
        build.len() == lists.domains.len(),
        first_bad_value(lists.domains, build),
    )
}

// Whether a reference allows the build's values: T, or a node marked so.
fn allows(marks: &[bool], reference: usize) -> bool {
    match reference {
        0 => false,
        1 => true,
        _ => marks
            .get(difference(reference, 2))
            .copied()
            .unwrap_or(false),
    }
}

// Marks each node, from the last to the first; the edges are taken off from the end.
fn mark_nodes(lists: Lists<'_>, build: &[u32], marks: &mut [bool]) {
    let mut edge = lists.targets.len();
    for (v, layer) in lists.layers.iter().enumerate().rev() {
        let value = entry(build, difference(*layer as usize, 1));
        edge = difference(edge, lists.edges_of(*layer));
        let mark = allows(marks, entry(lists.targets, sum(edge, value)));
        put(marks, v, mark);
    }
}

// Whether a lent diagram allows a build, or what has to be refused; with a list for the marks.
pub fn judge(lists: Lists<'_>, build: &[u32], marks: &mut [bool]) -> Result<bool, Due> {
    check(lists, build)?;
    mark_nodes(lists, build, marks);
    Ok(allows(marks, 2))
}

/// Two terms that are equal, by their places among the terms. Where a fact says so, it has them in this order; else they read one
/// field, at terms that are equal by edges before this one.
#[derive(Clone, Copy)]
pub(crate) struct Edge {
    pub(crate) left: usize,
    pub(crate) right: usize,
    pub(crate) is_given: bool,
}

/// The edge at a place.
pub(crate) fn edge_at(edges: &[Edge], place: usize) -> Edge {
    match edges.get(place) {
        Some(edge) => *edge,
        None => Edge {
            left: 0,
            right: 0,
            is_given: true,
        },
    }
}

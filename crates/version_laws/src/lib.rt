//! Laws of versions, in the words of a user. `version_list` defines histories step by step; these laws state the result.
//!
//! The calls do nothing: each is a fact that is proved of every history that is legal from an opening. Version k is
//! the graph after the batches of the first k commits (`versions_are_made_by_commits`), and has that graph for good
//! (`versions_keep_their_graphs`). A ticket keeps the version that the reply to its hold named, with the
//! graph that it had then, whatever is committed, held, released or trimmed until the ticket is given back
//! (`tickets_keep_their_graphs`), and after that there is no graph for it (`released_tickets_have_no_graph`). The numbers
//! of versions in the replies are 1, 2, 3 and so on, and so are those of tickets (`versions_are_numbered_in_order`,
//! `tickets_are_numbered_in_order`): no number is given twice. `specs/Keeping.antt` and `specs/Numbering.antt` have the
//! words.
//!
//! No crate of the program depends on this one, so that its proofs are off the way of a build.
#![tactic(auto)]

mod laws;

pub use laws::{
    released_tickets_have_no_graph, tickets_are_numbered_in_order, tickets_keep_their_graphs,
    versions_are_made_by_commits, versions_are_numbered_in_order, versions_keep_their_graphs,
};

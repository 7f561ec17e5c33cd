//! Laws of histories, each the contract of a call that does nothing.
ghost use Rattle.std.specs.Prelude.{◌≡◌, ◌≤◌, ℕ, List, ◌∷◌, ◌++◌, None, length, take};
ghost use Rattle.tree_batch.specs.declared.batch.Entry.{Entry};
ghost use Rattle.tree_batch.specs.Digraph.{empty_graph, graph_through};
ghost use Rattle.version_list.specs.declared.step.Done as done;
ghost use Rattle.version_list.specs.declared.step.Step as step;
ghost use Rattle.version_list.specs.declared.step.Which as which;
ghost use Rattle.version_list.specs.declared.step.Step.TheVariants.{Acquire, Commit, Release};
ghost use Rattle.version_list.specs.declared.step.Reply.TheVariants.{Released, Ticket, Version};
ghost use Rattle.version_list.specs.Machine.{State, newest_number, opened, reply_to, state_after, ticket_graph, version_graph, commits_of};
ghost use Rattle.version_list.specs.Timeline.{IsLegal, replay, replies_to};
ghost use Rattle.version_laws.specs.Keeping.{HasNoReleaseOf, Keeps, release_of, state_through, steps_in, ticket_given};
ghost use Rattle.version_laws.specs.Numbering.{CountsFromOne, replies_in, tickets_in, versions_in};

/// The law that versions are made by commits: version k of a legal history is the graph of n vertices without edges after the
/// batches of its first k commits, and the newest is that after all. A commit that is answered with a version makes the newest.
/// The call does nothing.
pub fn versions_are_made_by_commits()
    ensures graph { (n room k : ℕ) (history : List done.Done) → IsLegal (opened n room) history
        → version_graph (replay (opened n room) history) k ≡ graph_through (empty_graph n) (take k (commits_of history)) }
    ensures newest { (n room : ℕ) (history : List done.Done) → IsLegal (opened n room) history
        → newest_number (replay (opened n room) history) ≡ length (commits_of history) }
    ensures answer { (s : State) (batch : List Entry) (number : ℕ) → reply_to s (Commit batch) ≡ Version number
        → newest_number (state_after s (Commit batch)) ≡ number }
{}

/// The law that a version has one graph for good: whatever the history does to a state, a version that was made before
/// has the graph that it had. The call does nothing.
pub fn versions_keep_their_graphs()
    ensures { (s : State) (history : List done.Done) (k : ℕ) → k ≤ newest_number s
        → version_graph (replay s history) k ≡ version_graph s k }
{}

/// The law that a ticket keeps its version: from the hold that gave it until it is given back the ticket is open on the
/// version that the reply named, which is kept with the graph that it had at the hold. What comes between does not matter, in
/// a legal history as in steps of which some are refused. The call does nothing.
pub fn tickets_keep_their_graphs()
    ensures history { (n room number k : ℕ) (asked : which.Which) (before between : List done.Done)
        → IsLegal (opened n room) (before ++ ticket_given asked number k ∷ between) → HasNoReleaseOf number (steps_in between)
        → Keeps (replay (opened n room) (before ++ ticket_given asked number k ∷ between)) number k
        (version_graph (replay (opened n room) before) k) }
    ensures steps { (n room number k : ℕ) (asked : which.Which) (before between : List step.Step)
        → reply_to (state_through (opened n room) before) (Acquire asked) ≡ Ticket number k → HasNoReleaseOf number between
        → Keeps (state_through (opened n room) (before ++ Acquire asked ∷ between)) number k
        (version_graph (state_through (opened n room) before) k) }
{}

/// The law that a ticket which was given back has no graph, whatever comes after. The call does nothing.
pub fn released_tickets_have_no_graph()
    ensures history { (n room number : ℕ) (before after : List done.Done)
        → IsLegal (opened n room) (before ++ release_of number ∷ after)
        → ticket_graph (replay (opened n room) (before ++ release_of number ∷ after)) number ≡ None }
    ensures steps { (n room number : ℕ) (before after : List step.Step)
        → reply_to (state_through (opened n room) before) (Release number) ≡ Released
        → ticket_graph (state_through (opened n room) (before ++ Release number ∷ after)) number ≡ None }
{}

/// The law that the numbers of versions in the replies of a history are 1, 2, 3 and so on, as are those in what steps are
/// answered, refused ones among them; and that the newest version has the last of these numbers, or 0. The call does
/// nothing.
pub fn versions_are_numbered_in_order()
    ensures history { (n room : ℕ) (history : List done.Done) → IsLegal (opened n room) history
        → CountsFromOne (versions_in (replies_in history)) }
    ensures newest { (n room : ℕ) (history : List done.Done) → IsLegal (opened n room) history
        → newest_number (replay (opened n room) history) ≡ length (versions_in (replies_in history)) }
    ensures replies { (n room : ℕ) (steps : List step.Step) → CountsFromOne (versions_in (replies_to (opened n room) steps)) }
{}

/// The law that the numbers of tickets in the replies of a history are 1, 2, 3 and so on, as are those in what steps are
/// answered. The call does nothing.
pub fn tickets_are_numbered_in_order()
    ensures history { (n room : ℕ) (history : List done.Done) → IsLegal (opened n room) history
        → CountsFromOne (tickets_in (replies_in history)) }
    ensures replies { (n room : ℕ) (steps : List step.Step) → CountsFromOne (tickets_in (replies_to (opened n room) steps)) }
{}

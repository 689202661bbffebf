//! Laws that follow from the definitions alone, for readers who ask whether to believe the definitions.
//!
//! Each law is the contract of a function with no body.

ghost use Rattle.std.specs.Prelude.{◌≡◌, ◌≢◌, ℕ, ◌+◌, ◌⊎◌, Bool, true, false, List, [], ◌∷◌, Option, Some, None, IsTrue, IsSome, length, ◌<◌, ◌≤◌};
ghost use Rattle.node_table.specs.Charge.{Charge};
ghost use Rattle.spec_map.specs.Map.{Pairs, lookup};
ghost use Rattle.node_base.specs.Form.{next_form, smaller_form};
ghost use Rattle.node_base.specs.declared.base_node.NodeType.TheVariants.{N4};
ghost use Rattle.spec_node.specs.Key.{Begins};
ghost use Rattle.spec_olc.specs.Calls.{IsPoint, bytes_of};
ghost use Rattle.spec_olc.specs.Content.{IsContent, IsStoredAt};
ghost use Rattle.spec_olc.specs.Deciding.{IsContentStep};
ghost use Rattle.spec_olc.specs.Due.{IsDue};
ghost use Rattle.spec_olc.specs.Linearizable.{IsLinearizable};
ghost use Rattle.spec_olc.specs.Meaning.{meant};
ghost use Rattle.spec_olc.specs.Orderly.{IsOrderly};
ghost use Rattle.spec_olc.specs.Replay.{IsReplayed};
ghost use Rattle.spec_olc.specs.Scans.{IsScan, Reported, given};
ghost use Rattle.spec_olc.specs.Seats.{IsSeating};
ghost use Rattle.spec_olc.specs.declared.types.Event.{Event};
ghost use Rattle.spec_olc.specs.declared.trace.Line.{Line};
ghost use Rattle.spec_olc.specs.Kinds.{report_of, IsStart, IsStep, MayMake, Takes, Checks, Answers, SharesAnswer, Upgrades, Makes, Writes, Unlocks, Retires, Finishes};
ghost use Rattle.spec_olc.specs.Lasting.{AfterEach, AllStayObsolete, IsHeldOnce};
ghost use Rattle.spec_olc.specs.Lists.{is_in};
ghost use Rattle.spec_olc.specs.Local.{LeavesAll, SharesNone, seen_child, seen_payload};
ghost use Rattle.spec_olc.specs.Lock.{IsFree, IsObsolete};
ghost use Rattle.spec_olc.specs.Reading.{Remembered};
ghost use Rattle.spec_olc.specs.Runs.{Transition, IsHistory, fresh, same_number};
ghost use Rattle.spec_node.specs.TableNode.{TableNode};
ghost use Rattle.spec_olc.specs.Writing.{HeldNode, IsNewNode, changed, entry_below, with_children};
ghost use Rattle.spec_olc.specs.State.{LeavesNodes, publish, State, CallState, Cleaning, VersionedNode, not_yet, published};
ghost use Rattle.spec_olc.specs.Touching.{IsLive};
ghost use Rattle.spec_olc.specs.WellFormed.{IsWellFormed};
ghost use Rattle.spec_olc.specs.declared.trace.Decision.{Decision};
ghost use Rattle.spec_olc.specs.declared.types.Env.{Env};
ghost use Rattle.spec_olc.specs.declared.types.Op.{Op};
ghost use Rattle.spec_olc.specs.declared.types.Outcome.{Outcome};
ghost use Rattle.spec_olc.specs.declared.types.Reply.{Reply};
ghost use Rattle.spec_olc.specs.declared.types.Report.{Report};
ghost use Rattle.spec_olc.specs.declared.types.Seen.{Seen};

use crate::payload::HasMeaning;
use crate::trace::Line;
use crate::types::{Asking, Event, Kind, Op, Outcome, Progress, Reply};
use spec_node::child::Child;

/// A step leaves the seats and the root unchanged.
pub fn a_step_keeps_the_seats<P: HasMeaning>()
    ensures seats { (old new : State P.Meaning) (id : ℕ) (env : Env P.Meaning) (report : Report)
        (out : Outcome P.Meaning)
        → IsStep P.always_shared P.same_meaning old new id env report out → new.seats ≡ old.seats }
    ensures root { (old new : State P.Meaning) (id : ℕ) (env : Env P.Meaning) (report : Report)
        (out : Outcome P.Meaning)
        → IsStep P.always_shared P.same_meaning old new id env report out → new.root ≡ old.root }
{}

/// A step leaves the calls of all other numbers unchanged.
pub fn a_step_keeps_other_calls<P: HasMeaning>()
    ensures { (old new : State P.Meaning) (id : ℕ) (env : Env P.Meaning) (report : Report)
        (out : Outcome P.Meaning)
        → IsStep P.always_shared P.same_meaning old new id env report out → (other : ℕ)
        → other ≢ id → lookup new.calls other ≡ lookup old.calls other }
{}

/// If shares are always granted, only a Make is refused.
pub fn only_a_make_is_refused<P: HasMeaning>()
    ensures { P.always_shared
        → (old new : State P.Meaning) (id : ℕ) (env : Env P.Meaning) (report : Report)
        (out : Outcome P.Meaning)
        → IsStep P.always_shared P.same_meaning old new id env report out → out ≡ Outcome.Refused
        → report.kind ≡ Kind.Make }
{}

/// A call is refused only while it is open.
pub fn refused_only_while_open<P: HasMeaning>()
    ensures refused { (old new : State P.Meaning) (id : ℕ) (call : CallState P.Meaning)
        (env : Env P.Meaning) (report : Report)
        → lookup old.calls id ≡ Some call
        → IsStep P.always_shared P.same_meaning old new id env report Outcome.Refused
        → call.progress ≡ Progress.Open }
{}

/// After a Take that fails the call remembers no word.
pub fn a_failed_take_teaches_nothing<P: HasMeaning>()
    ensures { (old new : State P.Meaning) (id : ℕ) (call next : CallState P.Meaning)
        (env : Env P.Meaning) (report : Report) (out : Outcome P.Meaning)
        → Takes P.always_shared P.same_meaning old new id call env report out → report.ok ≡ false
        → lookup new.calls id ≡ Some next
        → (slot : ℕ) → lookup next.remembered slot ≡ None }
{}

/// A Take leaves the nodes that a call holds and has made, and its cursor, unchanged.
pub fn a_take_keeps_what_is_held<P: HasMeaning>()
    ensures { (old new : State P.Meaning) (id : ℕ) (call next : CallState P.Meaning)
        (env : Env P.Meaning) (report : Report) (out : Outcome P.Meaning)
        → Takes P.always_shared P.same_meaning old new id call env report out
        → lookup new.calls id ≡ Some next
        → (next.held ≡ call.held) × (next.made ≡ call.made) × (next.cursor ≡ call.cursor) }
{}

/// After an Unlock or an Obsolete the call no longer holds the node.
pub fn held_no_more<P: HasMeaning>()
    ensures unlocked { (old new : State P.Meaning) (id : ℕ) (call next : CallState P.Meaning)
        (env : Env P.Meaning) (report : Report) (out : Outcome P.Meaning) (slot : ℕ)
        → Unlocks P.always_shared P.same_meaning old new id call env report out
        → report.slot ≡ Some slot → lookup new.calls id ≡ Some next
        → is_in slot next.held ≡ false }
    ensures obsolete { (old new : State P.Meaning) (id : ℕ) (call next : CallState P.Meaning)
        (env : Env P.Meaning) (report : Report) (out : Outcome P.Meaning) (slot : ℕ)
        → Retires P.always_shared P.same_meaning old new id call env report out
        → report.slot ≡ Some slot → lookup new.calls id ≡ Some next
        → is_in slot next.held ≡ false }
{}

/// A Write leaves every node unchanged but the held one that it writes, those that its call has made, and the one that
/// it takes out.
pub fn a_write_keeps_all_other_nodes<P: HasMeaning>()
    ensures { (old new : State P.Meaning) (id : ℕ) (call : CallState P.Meaning)
        (env : Env P.Meaning) (report : Report) (out : Outcome P.Meaning) (slot : ℕ)
        → (w : Writes P.always_shared P.same_meaning old new id call env report out)
        → slot ≢ w.held.slot → is_in slot call.made ≡ false
        → ((a : VersionedNode P.Meaning) → w.gone ≡ Some (slot, a) → ⊥)
        → lookup new.nodes slot ≡ lookup old.nodes slot }
{}

/// The node that a Write takes out was the entry that it writes. Its call holds it, and it is empty afterwards.
pub fn a_write_empties_what_it_takes_out<P: HasMeaning>()
    ensures { (old new : State P.Meaning) (id : ℕ) (call : CallState P.Meaning)
        (env : Env P.Meaning) (report : Report) (out : Outcome P.Meaning) (slot : ℕ)
        (a : VersionedNode P.Meaning)
        → (w : Writes P.always_shared P.same_meaning old new id call env report out)
        → w.gone ≡ Some (slot, a)
        → (entry_below call w.held.node ≡ Some (Child.Node slot))
        × IsTrue (is_in slot call.held)
        × (lookup new.nodes slot ≡ Some (with_children a [])) }
{}

/// A payload is stored only in a leaf, below seven bytes: by a Write, and in a new node. The root of a well-formed tree
/// has none.
pub fn payloads_are_in_leaves<P: HasMeaning>()
    ensures written { (old new : State P.Meaning) (id : ℕ) (call : CallState P.Meaning)
        (env : Env P.Meaning) (report : Report) (out : Outcome P.Meaning) (v : P.Meaning)
        → (w : Writes P.always_shared P.same_meaning old new id call env report out)
        → w.child ≡ Some (Child.Payload v) → length w.held.node.node.prefix ≡ 7 }
    ensures made { (s : State P.Meaning) (call : CallState P.Meaning) (a : TableNode P.Meaning)
        (byte : ℕ) (v : P.Meaning)
        → IsNewNode s call a → lookup a.children byte ≡ Some (Child.Payload v)
        → length a.prefix ≡ 7 }
    ensures root { (s : State P.Meaning) (a : VersionedNode P.Meaning) (byte : ℕ) (v : P.Meaning)
        → IsWellFormed s → lookup s.nodes s.root ≡ Some a
        → lookup a.node.children byte ≡ Some (Child.Payload v) → ⊥ }
{}

/// A Write publishes each node that its call has made and doesn't hold, and leaves it unchanged otherwise.
pub fn a_write_publishes_what_was_made<P: HasMeaning>()
    ensures { (old new : State P.Meaning) (id : ℕ) (call : CallState P.Meaning)
        (env : Env P.Meaning) (report : Report) (out : Outcome P.Meaning) (slot : ℕ)
        (a : VersionedNode P.Meaning)
        → Writes P.always_shared P.same_meaning old new id call env report out
        → is_in slot call.made ≡ true → is_in slot call.held ≡ false
        → lookup old.nodes slot ≡ Some a → lookup new.nodes slot ≡ Some (publish a) }
{}

/// Only a Write publishes: after any other step a private node is still private, or its slot is free.
pub fn private_stays_private<P: HasMeaning>()
    ensures { (old new : State P.Meaning) (id : ℕ) (env : Env P.Meaning) (report : Report)
        (out : Outcome P.Meaning) (slot : ℕ) (a b : VersionedNode P.Meaning)
        → IsWellFormed old → IsStep P.always_shared P.same_meaning old new id env report out
        → report.kind ≢ Kind.Write
        → lookup old.nodes slot ≡ Some a → a.lifetime ≡ not_yet
        → lookup new.nodes slot ≡ Some b → b.lifetime ≡ not_yet }
{}

/// An obsolete node is never upgraded.
pub fn obsolete_is_never_upgraded<P: HasMeaning>()
    ensures { (old new : State P.Meaning) (id : ℕ) (call : CallState P.Meaning)
        (env : Env P.Meaning) (report : Report) (out : Outcome P.Meaning) (slot : ℕ)
        (a : VersionedNode P.Meaning)
        → Upgrades P.always_shared P.same_meaning old new id call env report out
        → report.slot ≡ Some slot → report.ok ≡ true
        → lookup old.nodes slot ≡ Some a → IsObsolete a.word → slot ≢ slot }
{}

/// A step leaves an obsolete node unchanged, so it stays until its slot is reclaimed.
pub fn obsolete_stays<P: HasMeaning>()
    ensures { (old new : State P.Meaning) (id : ℕ) (env : Env P.Meaning) (report : Report)
        (out : Outcome P.Meaning) (slot : ℕ) (a : VersionedNode P.Meaning)
        → IsWellFormed old → IsStep P.always_shared P.same_meaning old new id env report out
        → lookup old.nodes slot ≡ Some a → IsObsolete a.word → lookup new.nodes slot ≡ Some a }
{}

/// A fresh machine has no seats, and its content is empty.
pub fn fresh_is_empty<P: HasMeaning>()
    ensures seats { (root : ℕ) (charge : Option Charge) (s : State P.Meaning)
        → s ≡ fresh root charge → s.seats ≡ [] }
    ensures content { (root : ℕ) (charge : Option Charge) → (s : State P.Meaning)
        → s ≡ fresh root charge → IsContent s [] }
{}

/// The definitions can be satisfied: a Get on a fresh machine has these five events.
pub fn a_get_of_a_fresh_machine<P: HasMeaning>()
    ensures { (root id key : ℕ) (charge : Option Charge) (env : Env P.Meaning)
        → (a b c d e : State P.Meaning)
        × IsStart (fresh root charge) a id (Op.Get key) (report_of Kind.Start None 0 true)
        × IsStep P.always_shared P.same_meaning a b id env (report_of Kind.Take
        (Some root) 0 true) Outcome.Going
        × IsStep P.always_shared P.same_meaning b c id env (report_of Kind.Read
        (Some root) 0 true) Outcome.Going
        × IsStep P.always_shared P.same_meaning c d id env (report_of Kind.Check
        (Some root) 0 true) (Outcome.Decided (Reply.Old None))
        × IsStep P.always_shared P.same_meaning d e id env
        (report_of Kind.Finish None 0 true) Outcome.Done }
{}

/// A replay has one line for each event.
pub fn one_line_for_each_event()
    ensures { (events : List (Event ℕ)) (lines : List Line) (decided : List Decision)
        (content : Pairs ℕ)
        → IsReplayed events lines decided content → length lines ≡ length events }
{}

/// A step with the outcome `Going` leaves the content unchanged.
pub fn what_decides_nothing_leaves_the_content<P: HasMeaning>()
    ensures { (m : Pairs P.Meaning) (old new : State P.Meaning) (id : ℕ)
        → IsContentStep P.same_meaning m old new id Outcome.Going → IsContent new m }
{}

/// A seating leaves the nodes and the calls unchanged.
pub fn a_seating_keeps_all_else<P: HasMeaning>()
    ensures nodes { (old new : State P.Meaning) (id : ℕ) → IsSeating old new id
        → new.nodes ≡ old.nodes }
    ensures calls { (old new : State P.Meaning) (id : ℕ) → IsSeating old new id
        → new.calls ≡ old.calls }
{}

/// Over numbers the meaning of a state is the state.
pub fn numbers_mean_themselves()
    ensures { (s : State ℕ) → meant (λ x. x) s ≡ s }
{}

/// At the Start of a call no slot is live for it, whatever was named to an earlier call of its number.
pub fn a_start_knows_nothing()
    ensures { (id slot : ℕ) (op : Op ℕ) (report : Report) (out : Outcome ℕ) (seen : Option
        (Seen ℕ)) (after : State ℕ) (content : Pairs ℕ)
        (past : List Transition)
        → IsLive id slot
        (record {
          event = Event.Start id op;
          line = Line.Done report out seen;
          after = after;
          content = content;
        } ∷ past)
        → id ≢ id }
{}

/// The decided calls of a linearizable trace are one legal history; each call is decided or refused once at most, and a
/// point call ends only after that.
pub fn a_linearizable_trace_is_orderly()
    ensures history { (events : List (Event ℕ)) (lines : List Line) (decided : List Decision)
        (content : Pairs ℕ)
        → IsLinearizable events lines decided content → IsHistory [] decided content }
    ensures order { (events : List (Event ℕ)) (lines : List Line) (decided : List Decision)
        (content : Pairs ℕ) → IsLinearizable events lines decided content
        → (id : ℕ) → IsOrderly id None events lines }
{}

/// In no linearizable trace does a call have a step before its Start or after its Finish, is it decided twice, or does
/// a point call end that wasn't decided or refused; a decision has the number, the call and the reply of its lines; and
/// in an empty map no closure is asked with a value, and no range gives a pair.
pub fn what_breaks_linearizability()
    ensures early { (events : List (Event ℕ)) (lines : List Line) (decided : List Decision)
        (content : Pairs ℕ) (id : ℕ) (env : Env ℕ) (report : Report) (out : Outcome ℕ)
        (seen : Option (Seen ℕ))
        → IsLinearizable (Event.Step id env ∷ events) (Line.Done report out seen ∷ lines)
        decided content → ⊥ }
    ensures late { (events : List (Event ℕ)) (lines : List Line) (decided : List Decision)
        (content : Pairs ℕ) (id : ℕ) (op : Op ℕ) (env more : Env ℕ) (a b c : Report)
        (begins out : Outcome ℕ) (x y z : Option (Seen ℕ))
        → IsLinearizable
        (Event.Start id op ∷ Event.Step id env ∷ Event.Step id more ∷ events)
        (Line.Done a begins x ∷ Line.Done b Outcome.Done y ∷ Line.Done c out z ∷ lines)
        decided content → ⊥ }
    ensures twice { (events : List (Event ℕ)) (lines : List Line) (decided : List Decision)
        (content : Pairs ℕ) (id : ℕ) (op : Op ℕ) (env more : Env ℕ) (a b c : Report)
        (begins : Outcome ℕ) (reply other : Reply ℕ) (x y z : Option (Seen ℕ))
        → IsLinearizable
        (Event.Start id op ∷ Event.Step id env ∷ Event.Step id more ∷ events)
        (Line.Done a begins x ∷ Line.Done b (Outcome.Decided reply) y
        ∷ Line.Done c (Outcome.Decided other) z ∷ lines) decided content → ⊥ }
    ensures undecided { (events : List (Event ℕ)) (lines : List Line) (decided : List Decision)
        (content : Pairs ℕ) (id : ℕ) (op : Op ℕ) (env : Env ℕ) (a b : Report)
        (begins : Outcome ℕ) (x y : Option (Seen ℕ))
        → IsPoint op → IsLinearizable (Event.Start id op ∷ Event.Step id env ∷ events)
        (Line.Done a begins x ∷ Line.Done b Outcome.Done y ∷ lines) decided content → ⊥ }
    ensures decision { (events : List (Event ℕ)) (lines : List Line) (d : Decision)
        (decided : List Decision) (content : Pairs ℕ) (id : ℕ) (op : Op ℕ) (env : Env ℕ)
        (a b : Report) (begins : Outcome ℕ) (reply : Reply ℕ) (x y : Option (Seen ℕ))
        → IsLinearizable (Event.Start id op ∷ Event.Step id env ∷ events)
        (Line.Done a begins x ∷ Line.Done b (Outcome.Decided reply) y ∷ lines)
        (d ∷ decided) content
        → (d.id ≡ id) × (d.op ≡ op) × (d.reply ≡ reply) }
    ensures question { (events : List (Event ℕ)) (lines : List Line) (decided : List Decision)
        (content : Pairs ℕ) (id : ℕ) (op : Op ℕ) (env : Env ℕ) (a b : Report)
        (begins : Outcome ℕ) (old : Option ℕ) (x y : Option (Seen ℕ))
        → IsLinearizable (Event.Start id op ∷ Event.Step id env ∷ events)
        (Line.Done a begins x ∷ Line.Done b (Outcome.Ask old) y ∷ lines) decided content
        → old ≡ None }
    ensures pair { (events : List (Event ℕ)) (lines : List Line) (decided : List Decision)
        (content : Pairs ℕ) (id : ℕ) (op : Op ℕ) (env : Env ℕ) (a b : Report)
        (begins : Outcome ℕ) (key value : ℕ) (x y : Option (Seen ℕ))
        → IsLinearizable (Event.Start id op ∷ Event.Step id env ∷ events)
        (Line.Done a begins x ∷ Line.Done b (Outcome.Pair key value) y ∷ lines) decided content
        → ⊥ }
{}

/// Throughout a replay no node is held by two calls.
pub fn held_once_throughout()
    ensures { (events : List (Event ℕ)) (lines : List Line) (decided : List Decision)
        (content : Pairs ℕ) → (r : IsReplayed events lines decided content)
        → AfterEach IsHeldOnce r.run.entries }
{}

/// Throughout a replay an obsolete node is unchanged and never upgraded, until its slot is reclaimed.
pub fn obsolete_until_reclaimed()
    ensures { (events : List (Event ℕ)) (lines : List Line) (decided : List Decision)
        (content : Pairs ℕ) → (r : IsReplayed events lines decided content)
        → AllStayObsolete r.run.entries }
{}

/// Throughout a replay no number is seated.
pub fn no_seats_throughout()
    ensures { (events : List (Event ℕ)) (lines : List Line) (decided : List Decision)
        (content : Pairs ℕ) → (r : IsReplayed events lines decided content)
        → AfterEach (λ s. s.seats ≡ []) r.run.entries }
{}

/// A call that has its reply, or is refused, keeps no payload.
pub fn a_settled_call_keeps_no_payload<P: HasMeaning>()
    ensures decided { (old new : State P.Meaning) (id : ℕ) (next : CallState P.Meaning)
        (env : Env P.Meaning) (report : Report) (reply : Reply P.Meaning)
        → IsStep P.always_shared P.same_meaning old new id env report (Outcome.Decided reply)
        → lookup new.calls id ≡ Some next → (next.op ≡ None) × (next.asking ≡ Asking.Fresh) }
    ensures refused { (old new : State P.Meaning) (id : ℕ) (next : CallState P.Meaning)
        (env : Env P.Meaning) (report : Report)
        → IsStep P.always_shared P.same_meaning old new id env report Outcome.Refused
        → lookup new.calls id ≡ Some next → (next.op ≡ None) × (next.asking ≡ Asking.Fresh) }
{}

/// An Answer is refused only if the call shares it and there is something to share.
pub fn a_refused_answer_is_shared<P: HasMeaning>()
    ensures { (old new : State P.Meaning) (id : ℕ) (call : CallState P.Meaning)
        (env : Env P.Meaning) (report : Report) (out : Outcome P.Meaning)
        → Answers P.always_shared P.same_meaning old new id call env report out
        → out ≡ Outcome.Refused → SharesAnswer call.outline × IsSome env.answer }
{}

/// A Check decides only a call that leaves the map that it has seen unchanged.
pub fn a_check_decides_what_changes_nothing<P: HasMeaning>()
    ensures { (old new : State P.Meaning) (id : ℕ) (call : CallState P.Meaning)
        (env : Env P.Meaning) (report : Report) (out : Outcome P.Meaning)
        → Checks P.always_shared P.same_meaning old new id call env report out
        → IsTrue report.ok → (reply : Reply P.Meaning) → out ≡ Outcome.Decided reply
        → (op : Op P.Meaning) → call.op ≡ Some op
        → LeavesAll P.always_shared P.same_meaning call op }
{}

/// At a Check with the outcome `Going`, the reach of a range passes no key that is present.
pub fn a_reach_passes_nothing<P: HasMeaning>()
    ensures { (old new : State P.Meaning) (id : ℕ) (call : CallState P.Meaning)
        (env : Env P.Meaning) (report : Report) (out : Outcome P.Meaning) (a b n : ℕ)
        → call.outline ≡ Op.Range a b n
        → (c : Checks P.always_shared P.same_meaning old new id call env report out)
        → IsTrue report.ok → out ≡ Outcome.Going
        → (key : ℕ) (value : P.Meaning) → call.reach ≤ key → key < c.planned.reach
        → IsStoredAt old key value → ⊥ }
{}

/// If shares are always granted, only a point call that has something to store, or that cleans up, is refused.
pub fn only_what_stores_is_refused<P: HasMeaning>()
    ensures { (old new : State P.Meaning) (id : ℕ) (call : CallState P.Meaning)
        (env : Env P.Meaning) (report : Report) → P.always_shared
        → lookup old.calls id ≡ Some call
        → IsStep P.always_shared P.same_meaning old new id env report Outcome.Refused
        → MayMake call }
{}

/// A range that holds no node changes none: neither the nodes, nor their words, nor the number of pairs, nor the
/// charge. One that begins holds none, and its steps keep it so.
pub fn a_range_changes_no_node<P: HasMeaning>()
    ensures stays { (old new : State P.Meaning) (id : ℕ) (call : CallState P.Meaning)
        (env : Env P.Meaning) (report : Report) (out : Outcome P.Meaning)
        → (IsPoint call.outline → ⊥) → call.held ≡ [] → lookup old.calls id ≡ Some call
        → IsStep P.always_shared P.same_meaning old new id env report out → LeavesNodes old new }
    ensures holds { (old new : State P.Meaning) (id : ℕ) (call next : CallState P.Meaning)
        (env : Env P.Meaning) (report : Report) (out : Outcome P.Meaning)
        → (IsPoint call.outline → ⊥) → call.held ≡ [] → lookup old.calls id ≡ Some call
        → IsStep P.always_shared P.same_meaning old new id env report out → out ≢ Outcome.Done
        → lookup new.calls id ≡ Some next → next.held ≡ [] }
{}

/// What violates `IsScan`: a pair that isn't stored, the range's end, a key given twice, one pair too many, and a key
/// that is skipped.
pub fn what_breaks_a_range()
    ensures absent { (start end limit key value : ℕ) (x : Reported) → x.out ≡ Outcome.Pair key value
        → lookup x.content key ≡ None → IsScan start end limit (x ∷ []) → ⊥ }
    ensures end { (start end limit value : ℕ) (x : Reported) → x.out ≡ Outcome.Pair end value
        → IsScan start end limit (x ∷ []) → ⊥ }
    ensures twice { (start end limit key v u : ℕ) (x y : Reported) → x.out ≡ Outcome.Pair key v
        → y.out ≡ Outcome.Pair key u → IsScan start end limit (x ∷ y ∷ []) → ⊥ }
    ensures too_many { (start end limit key value : ℕ) (x : Reported) → limit ≡ 0
        → x.out ≡ Outcome.Pair key value → IsScan start end limit (x ∷ []) → ⊥ }
    ensures passed_over { (start end limit key : ℕ) (x y : Reported) → x.out ≡ Outcome.Going
        → y.out ≡ Outcome.Done → start ≤ key → key < end → 0 < limit
        → IsSome (lookup x.content key) → IsSome (lookup y.content key)
        → IsScan start end limit (x ∷ y ∷ []) → ⊥ }
{}

/// A range never gives its end or a key above it, so never the greatest `u64`.
pub fn a_range_stops_before_its_end()
    ensures { (start end limit key : ℕ) (events : List Reported) → IsScan start end limit events
        → end ≤ key → lookup (given events) key ≡ None }
{}

/// Only a Write lets a call begin to clean up: after any other step it cleans up as before, or no more.
pub fn only_a_write_begins_a_cleanup<P: HasMeaning>()
    ensures { (old new : State P.Meaning) (id : ℕ) (call next : CallState P.Meaning)
        (env : Env P.Meaning) (report : Report) (out : Outcome P.Meaning)
        → lookup old.calls id ≡ Some call
        → IsStep P.always_shared P.same_meaning old new id env report out
        → out ≢ Outcome.Done → report.kind ≢ Kind.Write → lookup new.calls id ≡ Some next
        → (next.cleaning ≡ call.cleaning) ⊎ (next.cleaning ≡ None) }
{}

/// What a Write leaves to clean up is a node from which it has taken a child, and which has few left.
pub fn a_cleanup_is_for_a_due_node<P: HasMeaning>()
    ensures { (old new : State P.Meaning) (id : ℕ) (call next : CallState P.Meaning)
        (env : Env P.Meaning) (report : Report) (out : Outcome P.Meaning) (c : Cleaning)
        → (w : Writes P.always_shared P.same_meaning old new id call env report out)
        → lookup new.calls id ≡ Some next → next.cleaning ≡ Some c
        → (w.child ≡ None) × IsDue (changed call w.held.node w.child).node
        × (c.depth ≡ length w.held.node.node.prefix) }
{}

/// A point call that has its reply decides nothing, asks nothing and isn't refused, so neither does one that cleans up.
pub fn a_cleanup_decides_nothing<P: HasMeaning>()
    ensures { (old new : State P.Meaning) (id : ℕ) (call : CallState P.Meaning)
        (env : Env P.Meaning) (report : Report) (out : Outcome P.Meaning)
        → lookup old.calls id ≡ Some call → IsPoint call.outline
        → call.progress ≡ Progress.Decided
        → IsStep P.always_shared P.same_meaning old new id env report out
        → (out ≡ Outcome.Going) ⊎ (out ≡ Outcome.Done) }
{}

/// A point call ends only once nothing is left to clean up.
pub fn no_end_before_the_cleanup<P: HasMeaning>()
    ensures { (old new : State P.Meaning) (id : ℕ) (call : CallState P.Meaning)
        (env : Env P.Meaning) (report : Report) (out : Outcome P.Meaning)
        → IsPoint call.outline → IsSome call.cleaning
        → Finishes P.always_shared P.same_meaning old new id call env report out → ⊥ }
{}

/// The Write that decides a call leaves a due node to clean up. So does that of a first cleanup, and this one is the
/// last: a third Write of a call leaves none.
pub fn a_third_write_leaves_no_cleanup<P: HasMeaning>()
    ensures first { (old new : State P.Meaning) (id : ℕ) (call : CallState P.Meaning)
        (env : Env P.Meaning) (report : Report) (out : Outcome P.Meaning)
        → (w : Writes P.always_shared P.same_meaning old new id call env report out)
        → call.cleaning ≡ None → w.child ≡ None
        → IsDue (changed call w.held.node w.child).node
        → (c : Cleaning) × (w.left ≡ Some c) × IsTrue c.again }
    ensures second { (old new : State P.Meaning) (id : ℕ) (call : CallState P.Meaning)
        (env : Env P.Meaning) (report : Report) (out : Outcome P.Meaning) (b : Cleaning)
        → (w : Writes P.always_shared P.same_meaning old new id call env report out)
        → call.cleaning ≡ Some b → IsTrue b.again → w.child ≡ None
        → IsDue (changed call w.held.node w.child).node
        → (c : Cleaning) × (w.left ≡ Some c) × (c.again ≡ false) }
    ensures third { (old new : State P.Meaning) (id : ℕ) (call : CallState P.Meaning)
        (env : Env P.Meaning) (report : Report) (out : Outcome P.Meaning) (b : Cleaning)
        → (w : Writes P.always_shared P.same_meaning old new id call env report out)
        → call.cleaning ≡ Some b → b.again ≡ false → w.left ≡ None }
{}

/// A call that is decided or asks its closure has read. If its last Read gave a node, a Check decides the call only
/// where it remembers a word of that node, and the node's prefix doesn't begin the key.
pub fn a_reply_needs_a_read<P: HasMeaning>()
    ensures decided { (old new : State P.Meaning) (id : ℕ) (call : CallState P.Meaning)
        (env : Env P.Meaning) (report : Report) (reply : Reply P.Meaning)
        → lookup old.calls id ≡ Some call
        → IsStep P.always_shared P.same_meaning old new id env report (Outcome.Decided reply)
        → IsSome call.seen }
    ensures asked { (old new : State P.Meaning) (id : ℕ) (call : CallState P.Meaning)
        (env : Env P.Meaning) (report : Report) (question : Option P.Meaning)
        → lookup old.calls id ≡ Some call
        → IsStep P.always_shared P.same_meaning old new id env report (Outcome.Ask question)
        → IsSome call.seen }
    ensures ends { (old new : State P.Meaning) (id : ℕ) (call : CallState P.Meaning)
        (env : Env P.Meaning) (report : Report) (out : Outcome P.Meaning) (reply : Reply P.Meaning)
        (slot : ℕ) → Checks P.always_shared P.same_meaning old new id call env report out
        → IsTrue report.ok → out ≡ Outcome.Decided reply
        → seen_child call.seen ≡ Some (Child.Node slot)
        → (b : Remembered old call) × (b.slot ≡ slot)
        × (Begins b.node.node.prefix (bytes_of call.cursor) → ⊥) }
{}

/// A Get locks nothing, nor does an exchange whose key has another value, nor a range.
pub fn what_changes_nothing_locks_nothing<P: HasMeaning>()
    ensures get { (old new : State P.Meaning) (id : ℕ) (call : CallState P.Meaning)
        (env : Env P.Meaning) (report : Report) (out : Outcome P.Meaning) (key : ℕ)
        → call.op ≡ Some (Op.Get key) → call.cleaning ≡ None
        → (SharesNone call.outline call.cleaning → ⊥)
        → Upgrades P.always_shared P.same_meaning old new id call env report out → ⊥ }
    ensures exchange { (old new : State P.Meaning) (id : ℕ) (call : CallState P.Meaning)
        (env : Env P.Meaning) (report : Report) (out : Outcome P.Meaning) (key : ℕ)
        (expected current : P.Meaning) (value : Option P.Meaning)
        → call.op ≡ Some (Op.CompareExchange key expected value) → call.cleaning ≡ None
        → (SharesNone call.outline call.cleaning → ⊥)
        → seen_payload call.seen ≡ Some current → P.same_meaning current expected ≡ false
        → Upgrades P.always_shared P.same_meaning old new id call env report out → ⊥ }
    ensures range { (old new : State P.Meaning) (id : ℕ) (call : CallState P.Meaning)
        (env : Env P.Meaning) (report : Report) (out : Outcome P.Meaning)
        → Upgrades P.always_shared P.same_meaning old new id call env report out
        → IsPoint call.outline }
{}

/// A Write changes its entry: it doesn't remove what isn't there, and stores no value that is the same.
pub fn a_write_changes_its_entry<P: HasMeaning>()
    ensures none { (old new : State P.Meaning) (id : ℕ) (call : CallState P.Meaning)
        (env : Env P.Meaning) (report : Report) (out : Outcome P.Meaning)
        → (w : Writes P.always_shared P.same_meaning old new id call env report out)
        → entry_below call w.held.node ≡ None → w.child ≡ None → ⊥ }
    ensures same { (old new : State P.Meaning) (id : ℕ) (call : CallState P.Meaning)
        (env : Env P.Meaning) (report : Report) (out : Outcome P.Meaning) (u v : P.Meaning)
        → (w : Writes P.always_shared P.same_meaning old new id call env report out)
        → entry_below call w.held.node ≡ Some (Child.Payload u)
        → w.child ≡ Some (Child.Payload v) → P.same_meaning v u ≡ false }
{}

/// A node that is made is a `Node4`, or a copy of a held node: of the next larger form, or in a cleanup of the next
/// smaller one. A call makes at most two.
pub fn a_made_node_has_its_form<P: HasMeaning>()
    ensures larger { (old new : State P.Meaning) (id : ℕ) (call : CallState P.Meaning)
        (env : Env P.Meaning) (report : Report) (out : Outcome P.Meaning)
        → (m : Makes P.always_shared P.same_meaning old new id call env report out)
        → call.cleaning ≡ None → m.made.form ≢ N4
        → (h : HeldNode old call) × (h.node.node.prefix ≡ m.made.prefix)
        × (m.made.form ≡ next_form h.node.node.form) }
    ensures smaller { (old new : State P.Meaning) (id : ℕ) (call : CallState P.Meaning)
        (env : Env P.Meaning) (report : Report) (out : Outcome P.Meaning) (c : Cleaning)
        → (m : Makes P.always_shared P.same_meaning old new id call env report out)
        → call.cleaning ≡ Some c → m.made.form ≢ N4
        → (h : HeldNode old call) × (h.node.node.prefix ≡ m.made.prefix)
        × (m.made.form ≡ smaller_form h.node.node.form) }
    ensures few { (old new : State P.Meaning) (id : ℕ) (call : CallState P.Meaning)
        (env : Env P.Meaning) (report : Report) (out : Outcome P.Meaning)
        → Makes P.always_shared P.same_meaning old new id call env report out
        → length call.made ≤ 1 }
{}

/// The pair that a range gives is what its last Read gave, and is stored in the node that is checked.
pub fn a_range_gives_what_it_read<P: HasMeaning>()
    ensures { (old new : State P.Meaning) (id : ℕ) (call : CallState P.Meaning)
        (env : Env P.Meaning) (report : Report) (out : Outcome P.Meaning) (key : ℕ)
        (value : P.Meaning)
        → (c : Checks P.always_shared P.same_meaning old new id call env report out)
        → IsTrue report.ok → out ≡ Outcome.Pair key value
        → (seen_payload call.seen ≡ Some value)
        × ((s : IsStoredAt old key value) × (s.slot ≡ c.knows.slot)) }
{}

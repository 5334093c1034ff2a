//! From the lanes that were served to the run of the plan.

ghost use Rattle.std.specs.Prelude.{List, Option, map};
ghost use Rattle.call_places.specs.declared.entries.Entry.{Entry};
ghost use Rattle.call_places.specs.Entries.{mark_of};
ghost use Rattle.turn_lock.specs.Passes.{PassView};
ghost use Rattle.hpke_context.specs.Contexts.{ContextView};
ghost use Rattle.batch_plans.specs.declared.plan.Plan.{Plan};
ghost use Rattle.batch_plans.specs.declared.replies.ContextReply.{ContextReply};
ghost use Rattle.batch_plans.specs.declared.replies.LaneAnswers.{LaneAnswers};
ghost use Rattle.batch_plans.specs.Within.{IsWithinLimits};
ghost use Rattle.lane_workers.specs.Gathered.{AllLanesServed, AllClosed, AreOfARun};
ghost use Rattle.lane_workers.specs.LiveGathered.{AllLiveLanesServed, AllLiveClosed, AreOfALiveRun};

/// What each lane shows by itself, over contexts that are closed, is one run of the plan: the journals
/// are legal and each guess may have been made, in both versions, and the lanes' answers have the
/// lines that are due.
///
/// A law of the definitions: the call does nothing.
pub fn served_lanes_make_a_run()
    ensures { (plan : Plan) (contexts : List (Option ContextView))
        (passes : List (List (Option PassView))) (answers : List LaneAnswers)
        (books : List (List Entry)) → IsWithinLimits plan
        → AllLanesServed plan contexts passes answers → AllClosed plan passes books
        → AreOfARun plan contexts answers (map (map mark_of) books) }
{}

/// The same of a plan whose lanes add and retire contexts while they are served. What each lane shows
/// by itself, over contexts and a table that are closed, is one run of the plan: each call has its
/// note, the notes and the journals are one legal history, each guess may have been made, and the
/// lanes' answers have the lines that are due.
///
/// A law of the definitions: the call does nothing.
pub fn live_lanes_make_a_run()
    ensures { (plan : Plan) (replies : List ContextReply) (standing : List (Option ContextView))
        (tables : List (List Entry)) (passes : List (List (Option PassView)))
        (answers : List LaneAnswers) (books : List (List Entry)) (notes : List Entry)
        → IsWithinLimits plan
        → AllLiveLanesServed plan replies standing tables passes answers
        → AllLiveClosed plan tables passes books notes
        → AreOfALiveRun plan replies standing answers (map (map mark_of) books) notes }
{}

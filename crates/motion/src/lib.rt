// Motion scripts: what a script means, and the theorems about it.
// Each function below carries one theorem about the definitions in specs/ and has no work of its own.
#![tactic(auto)]

ghost use Rattle.motion.specs.Determinism.{Deterministic, OneRest, OneStanding, OneCurve};
ghost use Rattle.motion.specs.FlowLaw.{FlowLaw};
ghost use Rattle.motion.specs.Solution.{StretchSolved, StretchSolvedExactly, StretchSolvedOnce, StretchFlows, SolutionFlows, StretchRuns};
ghost use Rattle.motion.specs.Stretches.{StretchExamples};
ghost use Rattle.motion.specs.NameChains.{ChainsRuled, RuleKept, RepeatsAlike, ChainExamples};
ghost use Rattle.motion.specs.Agreement.{FollowsRules};
ghost use Rattle.motion.specs.Cuts.{CutStop, CutEnd, CutErr};
ghost use Rattle.motion.specs.Carriers.{SimulationBy};
ghost use Rattle.motion.specs.Lasting.{RefusalsLast};
ghost use Rattle.motion.specs.Calls.{TotalIsSum, ExactCalls};
ghost use Rattle.motion.specs.Promise.{KindFollows, PromiseIn, PromiseKept, AgreeIn, KindsAgree, OneBench, NothingThere};
ghost use Rattle.motion.specs.OneAdvance.{AdvanceLaw, AlwaysStands, AlikeOnCurve};
ghost use Rattle.motion.specs.Refusals.{RefusalsTold};
ghost use Rattle.motion.specs.Pieces.{PiecesJoin, PiecesCount};
ghost use Rattle.motion.specs.Fitting.{Fitting};
ghost use Rattle.motion.specs.Marked.{MarkedRuns};
ghost use Rattle.motion.specs.Examples.{Examples};

use number::Kind;

pub mod words;

// The rules.

// A configuration steps to at most one other.
pub fn rules_determined()
    ensures { Deterministic }
{}

// A run comes to rest in at most one configuration, in one number of steps.
pub fn one_outcome()
    ensures { OneRest }
{}

// A run shows at most one standing.
pub fn one_standing()
    ensures { OneStanding }
{}

// A script has one curve: it spells at most one program, and shows at most one standing at each tick.
pub fn one_curve()
    ensures { OneCurve }
{}

// A stretch.

// The polynomials with Dk / k! at t^k, for k from 0 to 4, solve the stretch where no walk has five names: they start at the values before
// it, the derivative of each rated variable's is the sum over its parts, and the others are constant.
pub fn stretch_solved()
    ensures { StretchSolved }
{}

// They do so exactly where D5 is 0.
pub fn stretch_solved_exactly()
    ensures { StretchSolvedExactly }
{}

// No other polynomials solve it, of whatever degree.
pub fn stretch_solved_once()
    ensures { StretchSolvedOnce }
{}

// What the flow computes for n ticks is these polynomials at n.
pub fn stretch_flows()
    ensures { StretchFlows }
{}

// So it is any polynomials that solve the stretch, at n.
pub fn solution_flows()
    ensures { SolutionFlows }
{}

// In unlimited fractions the flow has an answer wherever every part names a variable.
pub fn stretch_runs()
    ensures { StretchRuns }
{}

// Three stretches worked out; a chain of five names is not solved.
pub fn stretch_examples()
    ensures { StretchExamples }
{}

// D5 is 0 where no walk has five names; where D5 is 0, n ticks and then m are n + m ticks.
pub fn flow_adds()
    ensures { FlowLaw }
{}

// Chains of names in a stretch.

// Some chain of different names returns to its start or has more than 4 names exactly where there is a walk of five names.
pub fn chains_ruled()
    ensures { ChainsRuled }
{}

// So no walk has five names exactly where every such chain keeps the rule.
pub fn rule_kept()
    ensures { RuleKept }
{}

// It is the same rule for chains in which a name may stand twice.
pub fn repeats_alike()
    ensures { RepeatsAlike }
{}

// The rule at five stretches: two names in a row, four, five, a circle of one and a circle of two.
pub fn chain_examples()
    ensures { ChainExamples }
{}

// A run that is cut.

// A run cut inside of a stretch and gone on with comes to rest where the uncut run does, in one step more.
pub fn cut_in_stretch()
    ensures { CutStop }
{}

// Where nothing is left to do, further ticks are over.
pub fn cut_past_end()
    ensures { CutEnd }
{}

// A run that fails fails for more ticks too.
pub fn failure_stays()
    ensures { CutErr }
{}

// The line machine and the rules.

// In unlimited fractions the machine makes the steps of the rules one for one and stands where they do; it is refused by 21 or 22 exactly
// where they fail, and by 20 exactly where they need more steps; an accepted advance of a new bench is on the curve, and where the curve
// has a standing, an advance with enough steps is accepted and stands there.
pub fn machine_follows_rules()
    ensures { FollowsRules }
{}

// The machine over two sorts of numbers.

// What a run in one sort of numbers accepts, or refuses by 19 to 22, a run in another does too, with related values, if the relation
// carries the operations. C is the type of the pairs that are related.
pub fn runs_follow<A, B, C>()
    ensures { SimulationBy A B C }
{}

// So a run in a kind's pairs is the run in unlimited fractions, wherever it is accepted or refused by 19 to 22.
pub fn kind_follows()
    ensures { KindFollows }
{}

// Over any numbers, 21, 22 and 23 last for more ticks and more steps, and 20 lasts for more ticks.
pub fn refusals_last<V>()
    ensures { RefusalsLast V }
{}

// Over any numbers, each answer has its condition: 19 too many ticks in all; 20 the steps allowed are made and something is still to do; any
// other number the next step fails by it; accepted, the end is come to, or a stretch is stopped in. And each step that fails has a reason.
pub fn refusals_told<V>()
    ensures { RefusalsTold V }
{}

// Any calls on one bench.

// The bench's total is the sum of the accepted ticks.
pub fn total_is_sum<V>()
    ensures { TotalIsSum V }
{}

// In unlimited fractions: total, as built, on the curve.
pub fn exact_calls()
    ensures { ExactCalls }
{}

// In every kind: the total is the sum; as built until an advance is accepted; from then on on the curve at the sum, readings too.
pub fn promise_kept()
    ensures { PromiseKept }
{}

// In every two kinds: with equal sums, both or neither with an accepted advance, the benches are alike.
pub fn kinds_agree()
    ensures { KindsAgree }
{}

// In one kind they are equal.
pub fn one_bench()
    ensures { OneBench }
{}

// Where an advance is refused by 21 or 22, the curve has nothing at that tick and at no later one.
pub fn nothing_there()
    ensures { NothingThere }
{}

// The same of the kinds of a program.
pub fn kinds_of_a_program<K: Kind, L: Kind>()
    ensures first { PromiseIn K.Kind.means K.Kind.code }
    ensures second { PromiseIn L.Kind.means L.Kind.code }
    ensures agree { AgreeIn K.Kind.means K.Kind.code L.Kind.means L.Kind.code }
{}

// One advance of a bench that stands: as built, or on the curve at its total.

// In every kind: accepted, it makes the steps with which the rules go on from there, and stands on the curve at the new total; refused by 21
// or 22, the rules fail within the steps allowed, and the curve has nothing there, nor later; refused by 20, they need more steps.
pub fn advance_law()
    ensures { AdvanceLaw }
{}

// After any calls on a new bench the bench stands.
pub fn always_stands()
    ensures { AlwaysStands }
{}

// In every two kinds: benches with one total that both stand on the curve, or are both as built, are alike.
pub fn alike_on_curve()
    ensures { AlikeOnCurve }
{}

// Two pieces against one.

// In unlimited fractions two pieces come to where one does, in as many steps, or one more where the cut lies in a stretch.
pub fn pieces_join()
    ensures { PiecesJoin }
{}

// The same count of steps in every kind, after any calls.
pub fn pieces_count()
    ensures { PiecesCount }
{}

// A new bench fits its script, and a bench that fits goes on fitting.
pub fn benches_fit()
    ensures { Fitting }
{}

// Examples.

// The eight marked runs.
pub fn marked_runs()
    ensures { MarkedRuns }
{}

// Scripts at which the premises of the theorems are met.
pub fn premises_met()
    ensures { Examples }
{}

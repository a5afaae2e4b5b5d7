// What the answers of a referee unit mean: the definitions are in specs/. Each function here has a theorem about them for its contract.
#![tactic(auto)]

ghost use Rattle.definitions.specs.Deal.{MadeLawful, SheetsDecided, SheetsRefused};
ghost use Rattle.definitions.specs.Form.{KeywordsSpelt, ValuesDecimal, TermsAlike};
ghost use Rattle.definitions.specs.Holds.{HoldsStandard, StandardOne, LevelLocal, WithoutKnowledge};
ghost use Rattle.definitions.specs.Knowledge.{ChainsDecided, HintLeaves, HintsLawful, KnowingKnows, KnowledgeOne};
ghost use Rattle.definitions.specs.Law.{Referees};
ghost use Rattle.definitions.specs.Level.{ComingBackDecided, LookingAheadDecided, ReachesDecides, RestingDecided, LevelsLeast, NoLevels};
ghost use Rattle.definitions.specs.Numbering.{NamesByFirstAppearance, NumbersTell};
ghost use Rattle.definitions.specs.Play.{ClassesTell, ClassesByFirstAppearance, ClassesNumbered, PlayersDecided, BooksArePlays, EvennessJudged, PlaysOnce, PlaysOne};
ghost use Rattle.definitions.specs.Reading.{Decided};
ghost use Rattle.definitions.specs.Ruleset.{AcceptedSound};
ghost use Rattle.definitions.specs.Worked.{Worked};
ghost use Rattle.definitions.specs.Writing.{Reread};

// Each text is read or refused, in one way; what is written reads as the same terms.
pub fn text_laws()
    ensures read { Decided }
    ensures written { Reread }
{}

// What equal terms, keywords and goal values are.
pub fn form_laws()
    ensures terms { TermsAlike }
    ensures keywords { KeywordsSpelt }
    ensures values { ValuesDecimal }
{}

// Names are numbered by first appearance, one to one.
pub fn numbering_laws()
    ensures first { NamesByFirstAppearance }
    ensures one { NumbersTell }
{}

// Dependence is decided; levels exist exactly where nothing comes back, and the least are computed.
pub fn level_laws()
    ensures dependence { ReachesDecides }
    ensures least { LevelsLeast }
    ensures refused { NoLevels }
    ensures back { ComingBackDecided }
    ensures ahead { LookingAheadDecided }
    ensures resting { RestingDecided }
{}

// What an accepted game keeps to.
pub fn game_laws()
    ensures sound { AcceptedSound }
{}

// What holds is the standard model, of which there is one; it looks only at knowledge below, and a fact that rests on none at none.
pub fn model_laws()
    ensures standard { HoldsStandard }
    ensures one { StandardOne }
    ensures local { LevelLocal }
    ensures unaware { WithoutKnowledge }
{}

// What is computed is the knowledge in a frame, of which there is one, and its chains are chains.
pub fn knowledge_laws()
    ensures chains { ChainsDecided }
    ensures known { KnowingKnows }
    ensures one { KnowledgeOne }
{}

// The books have exactly the legal plays, each once, with what is known in them, and there is one reading of both.
pub fn play_laws()
    ensures books { BooksArePlays }
    ensures once { PlaysOnce }
    ensures one { PlaysOne }
{}

// A sheet is accepted exactly if it is laid out as one, and else refused where it is wrong; a hint leaves exactly the worlds that stood and in which its fact holds; the deals that are made are lawful.
pub fn deal_laws()
    ensures sheets { SheetsDecided }
    ensures refused { SheetsRefused }
    ensures hints { HintLeaves }
    ensures lawful { MadeLawful }
    ensures hinted { HintsLawful }
{}

// Class numbers say what a role can't tell apart, by first appearance; evenness is judged for the players.
pub fn class_laws()
    ensures even { EvennessJudged }
    ensures players { PlayersDecided }
    ensures numbered { ClassesNumbered }
    ensures tell { ClassesTell }
    ensures first { ClassesByFirstAppearance }
{}

// The law over runs: a seat learns from its own play alone, knows exactly what holds in every play that it can't tell from the real one, and facts that rest on no knowledge are hinted in either order.
pub fn run_law()
    ensures { Referees }
{}

// The worked positions hold of the definitions.
pub fn worked_positions()
    ensures { Worked }
{}

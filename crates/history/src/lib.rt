// What a bench has been through, and what follows from it: count, standings, reports, points and answers.
#![tactic(auto)]

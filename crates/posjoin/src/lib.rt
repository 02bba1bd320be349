// Where positions and job meet: for a job that passed the door and a table that holds it, what `positions` writes by rows is what the job's meaning has for its
// lines (specs/Lines.antt). No code. It relies on `join` for the rows, on `job` for the meaning, and on `word` for what level one promises.
#![tactic(auto)]

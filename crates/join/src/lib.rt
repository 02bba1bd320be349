// Where table and job meet: the rows of a job's elements by the job's own definitions (specs/Rows.antt), and the laws that lines by rows are the job's lines
// (specs/Join.antt). No code: `layout` writes such a table, and those who read one know nothing of jobs. It relies on `job` and `cells`.
#![tactic(auto)]

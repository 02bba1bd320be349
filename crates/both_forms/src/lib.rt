// A sheet and its conversion (document 02, R-6), and no code: what the account program writes of the two is the same (specs/Account.antt), as `converter` has it of what the
// setting program writes. It relies on `converter` for the other sheet and on `account_sheet` for the account.
#![tactic(auto)]

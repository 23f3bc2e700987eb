// The figures of document 01, proved over one table, and document 000's Example 73: specs/. No functions.
#![tactic(auto)]

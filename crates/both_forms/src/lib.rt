// No code: steps, orders, visits and audits, in a net and in its complement; the edges and the worked examples.
#![tactic(auto)]

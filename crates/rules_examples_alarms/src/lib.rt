// Worked examples of alarms, each with the request's words above it. It has no code of its own.

#![tactic(auto)]

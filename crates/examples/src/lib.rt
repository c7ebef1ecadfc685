// The worked examples of document 01 and of the requests, proved for the definitions. There is no code here.
#![tactic(auto)]

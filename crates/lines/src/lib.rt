// Lines of N-Triples: what loading one does to the graph (`specs/Claims.antt`), and the file of the live statements
// (`specs/Export.antt`). There is no code here.
#![tactic(auto)]

// That no way of sending the packets of a list costs less than the exact timetable, and what rounding the rates up adds. There is nothing to run here: the
// statements stand in specs/, each as document 01 words it, and their proofs in proofs/.
#![tactic(auto)]

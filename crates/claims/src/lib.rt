// What is promised of the calls, on one page: specs/Claims.antt. Definitions and theorems only.
#![tactic(auto)]

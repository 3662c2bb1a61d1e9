// What holds of walks, queues and feeding in every plan that obeys the joint rules. All of it is in specs/.
#![tactic(auto)]

//! Texts, what their runs write, and debugging sessions. What these answer is tried on the built program, by
//! dev/test_whole.py.

/// One segment, which goes there and is acknowledged.
pub(super) const FIRST: &str = "sim 1000000000
node s sender
node r receiver
link a s r 8000000 1000000 droptail 10
link b r s 8000000 1000000 droptail 10
flow f s r 1000 1 0 64000 0
";

pub(super) const FIRST_TRACE: &str =
    "1 0 0 0 0 start 0 una=0 nxt=1000 cwnd=4000 ssthresh=64000 phase=ss tx=0:0:0
2 1040000 0 0 3 free 0 una=0 nxt=1000 cwnd=4000 ssthresh=64000 phase=ss
3 2040000 1 1 1 data 0 0 next=1000 tx=1:0:1000
4 2080000 1 0 3 free 1 next=1000
5 3080000 0 2 1 ack 0 1000 una=1000 nxt=1000 cwnd=5000 ssthresh=64000 phase=ss
end 5
";

/// Two flows over a router, whose events come at the same moments.
pub(super) const EQUAL_TIMES: &str = "sim 2040001
node s sender
node t sender
node q router
node u receiver
node v receiver
link a s q 8000000 1000000 droptail 10
link b t q 8000000 1000000 droptail 10
link c q u 8000000 1000000 droptail 10
link d u q 8000000 1000000 droptail 10
link e q v 8000000 1000000 droptail 10
link g v q 8000000 1000000 droptail 10
link h q s 8000000 1000000 droptail 10
link i q t 8000000 1000000 droptail 10
flow x s u 1000 1 0 64000 0
flow y t v 1000 1 0 64000 0
route q u c
route q v e
route q s h
route q t i
";

/// The node decides, lines 1 to 4, and then the link that a packet came over, lines 5 and 6.
pub(super) const EQUAL_TIMES_TRACE: &str =
    "1 0 0 0 0 start 0 una=0 nxt=1000 cwnd=4000 ssthresh=64000 phase=ss tx=0:0:0
2 0 1 0 0 start 1 una=0 nxt=1000 cwnd=4000 ssthresh=64000 phase=ss tx=1:1:0
3 1040000 0 0 3 free 0 una=0 nxt=1000 cwnd=4000 ssthresh=64000 phase=ss
4 1040000 1 0 3 free 1 una=0 nxt=1000 cwnd=4000 ssthresh=64000 phase=ss
5 2040000 2 1 1 data 0 0 tx=2:0:0
6 2040000 2 2 1 data 1 0 tx=4:1:0
end 6
";

/// Moves both ways over one segment, a breakpoint on segments, until a moment, and a word that is none.
pub(super) const MOVES: &str = "sim 1000000000
node s sender
node r receiver
link a s r 8000000 1000000 droptail 10
link b r s 8000000 1000000 droptail 10
flow f s r 1000 1 0 64000 0
---
step 3
back 2
back 9
run
back 9
break kind data
run
run
back 1
until 2040000
bak 1
";

/// A breakpoint on a flow, back, and until a moment that is past.
pub(super) const OF_A_FLOW: &str = "sim 2040001
node s sender
node t sender
node q router
node u receiver
node v receiver
link a s q 8000000 1000000 droptail 10
link b t q 8000000 1000000 droptail 10
link c q u 8000000 1000000 droptail 10
link d u q 8000000 1000000 droptail 10
link e q v 8000000 1000000 droptail 10
link g v q 8000000 1000000 droptail 10
link h q s 8000000 1000000 droptail 10
link i q t 8000000 1000000 droptail 10
flow x s u 1000 1 0 64000 0
flow y t v 1000 1 0 64000 0
route q u c
route q v e
route q s h
route q t i
---
break flow 1
run
run
run
back 1
until 2040000
";

/// What waits in a queue that is CoDel's.
pub(super) const QUEUE: &str = "sim 2080001
node s sender
node r receiver
link a s r 8000000 1000000 codel 10 1 1 1
link b r s 8000000 1000000 droptail 10
flow f s r 1000 4 0 64000 0
---
step 1
";

/// A NewReno flow that loses segments of one window, and one of them again, beside a Reno flow.
pub(super) const NEWRENO: &str = "sim 10000000000
node s sender
node t sender
node p router
node q router
node u receiver
node v receiver
link a s p 80000000 1000000 droptail 50
link b p s 80000000 1000000 droptail 50
link c t p 80000000 2000000 droptail 50
link d p t 80000000 2000000 droptail 50
link e p q 8000000 5000000 droptail 20
link g q p 8000000 5000000 droptail 20
link h q u 80000000 1000000 droptail 50
link i u q 80000000 1000000 droptail 50
link j q v 80000000 1000000 droptail 50
link k v q 80000000 1000000 droptail 50
flow x s u 1000 30 0 64000 0 newreno iw10
flow y t v 1000 20 500000 64000 2000000 reno iw3
route p u e
route p v e
route p s b
route p t d
route q u h
route q v j
route q s g
route q t g
lose a 12
lose a 15
lose a 17
lose a 32
---
break kind rto
until 34000000
run
back 1
step 1
run
back 400
clear
break drop
run
run
until 1055000000
back 3
step 40
run
";

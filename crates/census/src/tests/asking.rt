//! Nodes that ask others for snapshots and slices.

// Whom a node may ask, and what it gets: a joining node its leader alone, and one that left a bye.
pub(crate) const REQUESTS: &str = "\
> ask 1 2
no node
> need 1 2 0
no node
> lead 1 127.0.0.1:9001 0 0 0
up 1
> ask 1 1
leader
> need 1 1 0
leader
> boot 2 127.0.0.1:9002 10 0 0 full
up 2
> boot 3 127.0.0.1:9003 20 0 0 partial
up 3
> need 2 1 0
joining
> ask 2 2
unknown 2
> ask 2 3
unknown 3
> ask 2 1
told
#1 2>1 ask 0
> deliver 1
silent
> join 2
told
#2 2>1 report 1
> deliver 2
noted 1 0 0 0
> close
accepted 2 join
closed 1
#3 1>2 snap 1 0
> deliver 3
jumped 1
> ask 2 2
unknown 2
> ask 2 3
unknown 3
> need 2 3 0
unknown 3
> ask 2 1
told
#4 2>1 ask 2
> deliver 4
silent
> need 2 1 7
told
#5 2>1 need 2 7
> deliver 5
silent
> ask 3 1
told
#6 3>1 ask 0
> deliver 6
silent
> crash 2
down 2
> ask 2 1
down
> restart 2
member 1
> leave 2
told
#7 2>1 report 1
> deliver 7
noted 1 0 0 0
> close
accepted 2 leave
closed 2
#8 1>2 piece 2 0 0
#9 1>2 piece 2 0 1
#10 1>2 piece 2 0 2
#11 1>2 piece 2 0 3
> deliver 8
held
> deliver 9
held
#12 2>1 piece 2 0 1
> ask 2 1
told
#13 2>1 ask 2
> need 2 1 0
told
#14 2>1 need 2 0
> deliver 13
answered
#15 1>2 bye 2
> deliver 15
departed
> ask 2 1
departed
> need 2 1 0
departed
";

// A member that missed three epochs, and then one.
pub(crate) const BEHIND: &str = "\
> lead 1 127.0.0.1:9001 0 0 0
up 1
> boot 2 127.0.0.1:9002 10 0 0 partial
up 2
> join 2
told
#1 2>1 report 1
> deliver 1
noted 1 0 0 0
> close
accepted 2 join
closed 1
#2 1>2 snap 1 0
> deliver 2
jumped 1
> close
closed 2
#3 1>2 piece 2 0 0
#4 1>2 piece 2 0 1
#5 1>2 piece 2 0 2
#6 1>2 piece 2 0 3
> close
closed 3
#7 1>2 piece 3 0 0
#8 1>2 piece 3 0 1
#9 1>2 piece 3 0 2
#10 1>2 piece 3 0 3
> close
closed 4
#11 1>2 piece 4 0 0
#12 1>2 piece 4 0 1
#13 1>2 piece 4 0 2
#14 1>2 piece 4 0 3
> deliver 11
early 1 4
> need 2 1 0
told
#15 2>1 need 2 0
> deliver 15
answered
#16 1>2 snap 4 0
> deliver 16
jumped 4
> deliver 3
stale 4 2
> close
closed 5
#17 1>2 piece 5 0 0
#18 1>2 piece 5 0 1
#19 1>2 piece 5 0 2
#20 1>2 piece 5 0 3
> need 2 1 0
told
#21 2>1 need 5 0
> deliver 21
answered
#22 1>2 slice 5 0
> deliver 22
advanced 5
#23 2>1 piece 5 0 1
#24 2>1 piece 5 0 3
";

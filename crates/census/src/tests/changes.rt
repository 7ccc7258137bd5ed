// How members move and leave.

// Node 2 leaves, and its join comes once more.
pub(crate) const LEFT: &str = "\
> lead 1 127.0.0.1:9001 0 0 0
up 1
> boot 2 127.0.0.1:9002 10 0 0 partial
up 2
> join 2
told
#1 2>1 report 1
> deliver 1
noted 1 0 0 0
> close
accepted 2 join
closed 1
#2 1>2 snap 1 0
> deliver 2
jumped 1
> leave 2
told
#3 2>1 report 1
> deliver 3
noted 1 0 0 0
> close
accepted 2 leave
closed 2
#4 1>2 piece 2 0 0
#5 1>2 piece 2 0 1
#6 1>2 piece 2 0 2
#7 1>2 piece 2 0 3
> deliver 1
noted 1 0 0 0
> close
refused 2 join retired
closed 3
> deliver 4
held
> deliver 5
held
#8 2>1 piece 2 0 1
> deliver 6
departed
#9 2>1 piece 2 0 3
> print 2
departed
";

// The second move comes before the first.
pub(crate) const STALE_MOVE: &str = "\
> lead 1 127.0.0.1:9001 0 0 0
up 1
> boot 2 127.0.0.1:9002 10 0 0 partial
up 2
> join 2
told
#1 2>1 report 1
> deliver 1
noted 1 0 0 0
> close
accepted 2 join
closed 1
#2 1>2 snap 1 0
> deliver 2
jumped 1
> move 2 20 0 0
moved 1
#3 2>1 report 1
> move 2 30 0 0
moved 2
#4 2>1 report 1
> deliver 4
noted 1 0 0 0
> close
accepted 2 move
closed 2
#5 1>2 piece 2 0 0
#6 1>2 piece 2 0 1
#7 1>2 piece 2 0 2
#8 1>2 piece 2 0 3
> deliver 3
noted 1 0 0 0
> close
refused 2 move stale
closed 3
#9 1>2 piece 3 0 0
#10 1>2 piece 3 0 1
#11 1>2 piece 3 0 2
#12 1>2 piece 3 0 3
> print 1
epoch 3
region 0 2 30 0 0 0 0 0 30 0 0
global 0 1 127.0.0.1:9001 0 0 0
global 0 2 127.0.0.1:9002 30 0 0
member 0 1 127.0.0.1:9001 0 0 0
member 0 2 127.0.0.1:9002 30 0 0
inter 0 0
inter 1 0
inter 2 0
inter 3 0
local 0 0 1 1>2
local 0 1 2 2>1
digest 74187dcbb2f1927c6d60a09f69fde3e1cf1cce8d6279e1af0a77b8b7425988a7
end
";

// The members report to node 2, which keeps what it does itself, and hands all on at once.
pub(crate) const REPORTER: &str = "\
> lead 9 127.0.0.1:9009 0 0 0
up 9
> boot 2 127.0.0.1:9002 10 0 0 partial
up 2
> boot 3 127.0.0.1:9003 20 0 0 partial
up 3
> boot 4 127.0.0.1:9004 30 0 0 partial
up 4
> join 2
told
#1 2>9 report 1
> join 3
told
#2 3>9 report 1
> join 4
told
#3 4>9 report 1
> deliver 1
noted 1 0 0 0
> deliver 2
noted 1 0 0 0
> deliver 3
noted 1 0 0 0
> flush 2
joining
> close
accepted 2 join
accepted 3 join
accepted 4 join
closed 1
#4 9>2 snap 1 0
#5 9>3 snap 1 0
#6 9>4 snap 1 0
> deliver 4
jumped 1
> deliver 5
jumped 1
> flush 2
nothing
> leave 9
leader
> flush 9
leader
> move 3 25 0 0
moved 1
#7 3>2 report 1
> move 3 26 0 0
moved 2
#8 3>2 report 1
> move 2 12 0 0
moved 1
noted 1 0 0 0
> leave 2
told
noted 0 1 0 0
> deliver 7
noted 1 0 0 0
> deliver 8
noted 0 1 0 0
> deliver 7
noted 0 0 1 0
> deliver 6
jumped 1
> leave 4
told
#9 4>2 report 1
> deliver 9
noted 1 0 0 0
> flush 2
flushed 3
#10 2>9 report 3
> flush 2
nothing
> deliver 10
noted 3 0 0 0
> close
accepted 2 leave
accepted 3 move
accepted 4 leave
closed 2
#11 9>2 piece 2 0 0
#12 9>3 piece 2 0 1
#13 9>4 piece 2 0 2
#14 9>2 piece 2 0 3
#15 9>3 piece 2 0 3
#16 9>4 piece 2 0 3
> print 9
epoch 2
region 0 2 26 0 0 0 0 0 26 0 0
global 0 3 127.0.0.1:9003 26 0 0
global 0 9 127.0.0.1:9009 0 0 0
member 0 3 127.0.0.1:9003 26 0 0
member 0 9 127.0.0.1:9009 0 0 0
inter 0 0
inter 1 0
inter 2 0
inter 3 0
local 0 0 3 3>9
local 0 1 9 9>3
digest a2d133176ce0dc5f4434749e1b16da808489f8d4d1996ffc5442e1ab135b43e4
end
";

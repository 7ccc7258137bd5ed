// How packets are lost, and how settling delivers the others.

// Packet 3 is lost, and comes by its number all the same. Packet 11, a piece, is lost too: one round delivers the
// others, and the rounds behind it what these lead to.
pub(crate) const SETTLED: &str = "\
> lead 1 127.0.0.1:9001 0 0 0
up 1
> boot 2 127.0.0.1:9002 10 0 0 partial
up 2
> boot 3 127.0.0.1:9003 20 0 0 partial
up 3
> boot 4 127.0.0.1:9004 30 0 0 partial
up 4
> join 2
told
#1 2>1 report 1
> join 3
told
#2 3>1 report 1
> join 4
told
#3 4>1 report 1
> lose 3
lost
> lose 4
no packet
> settle 1
- deliver 1
noted 1 0 0 0
- deliver 2
noted 1 0 0 0
settled 2
> deliver 3
noted 1 0 0 0
> close
accepted 2 join
accepted 3 join
accepted 4 join
closed 1
#4 1>2 snap 1 0
#5 1>3 snap 1 0
#6 1>4 snap 1 0
> settle 20
- deliver 4
jumped 1
- deliver 5
jumped 1
- deliver 6
jumped 1
settled 3
> move 4 35 0 0
moved 1
#7 4>1 report 1
> settle 1
- deliver 7
noted 1 0 0 0
settled 1
> close
accepted 4 move
closed 2
#8 1>2 piece 2 0 0
#9 1>3 piece 2 0 0
#10 1>4 piece 2 0 0
#11 1>2 piece 2 0 1
#12 1>3 piece 2 0 2
#13 1>4 piece 2 0 3
> lose 11
lost
> settle 1
- deliver 8
held
- deliver 9
held
- deliver 10
held
- deliver 12
held
#14 3>1 piece 2 0 2
#15 3>2 piece 2 0 2
#16 3>4 piece 2 0 2
- deliver 13
held
#17 4>1 piece 2 0 3
#18 4>2 piece 2 0 3
#19 4>3 piece 2 0 3
settled 5
> settle 20
- deliver 14
stale 2 2
- deliver 15
held
- deliver 16
advanced 2
- deliver 17
stale 2 2
- deliver 18
advanced 2
#20 2>1 piece 2 0 1
#21 2>3 piece 2 0 1
#22 2>4 piece 2 0 1
- deliver 19
advanced 2
- deliver 20
stale 2 2
- deliver 21
already
- deliver 22
already
settled 9
> settle 20
settled 0
> print 4
epoch 2
region 0 4 65 0 0 0 0 0 35 0 0
global 0 1 127.0.0.1:9001 0 0 0
global 0 2 127.0.0.1:9002 10 0 0
global 0 3 127.0.0.1:9003 20 0 0
global 0 4 127.0.0.1:9004 35 0 0
member 0 1 127.0.0.1:9001 0 0 0
member 0 2 127.0.0.1:9002 10 0 0
member 0 3 127.0.0.1:9003 20 0 0
member 0 4 127.0.0.1:9004 35 0 0
inter 0 0
inter 1 0
inter 2 0
inter 3 0
local 0 0 1 1>2 1>3 1>4
local 0 1 2 2>1 2>3 2>4
local 0 2 3 3>1 3>2 3>4
local 0 3 4 4>1 4>2 4>3
digest c536a899ff0f648fbb4f5fbfc3caec2473d0dda91a6ddfc3fe4d233ae79f9151
end
";

// Noise reaches no node, and some lines have no effect in a schedule of the group.
pub(crate) const NOT_HERE: &str = "\
> noise 1 5
no node
> lead 1 127.0.0.1:9001 0 0 0
up 1
> noise 1 0
> noise 1 65535
> home 1 127.0.0.1:9001
not here
> home 3 127.0.0.1:9003
not here
> packet 1 00ff
not here
> packet 7 -
not here
> lose 1
no packet
> settle 1000
settled 0
";

// What members answer to the pieces of an epoch in which nothing changes.

// Node 2 makes piece 1 from three others, before it comes.
pub(crate) const LATE_PIECE: &str = "\
> lead 1 127.0.0.1:9001 0 0 0
up 1
> boot 2 127.0.0.1:9002 10 0 0 partial
up 2
> boot 3 127.0.0.1:9003 20 0 0 partial
up 3
> join 2
told
#1 2>1 report 1
> join 3
told
#2 3>1 report 1
> deliver 1
noted 1 0 0 0
> deliver 2
noted 1 0 0 0
> close
accepted 2 join
accepted 3 join
closed 1
#3 1>2 snap 1 0
#4 1>3 snap 1 0
> deliver 3
jumped 1
> deliver 4
jumped 1
> close
closed 2
#5 1>2 piece 2 0 0
#6 1>3 piece 2 0 0
#7 1>2 piece 2 0 1
#8 1>3 piece 2 0 2
#9 1>2 piece 2 0 3
#10 1>3 piece 2 0 3
> deliver 5
held
> deliver 8
held
#11 3>1 piece 2 0 2
#12 3>2 piece 2 0 2
> deliver 9
held
> deliver 12
advanced 2
#13 2>1 piece 2 0 1
#14 2>3 piece 2 0 1
> deliver 7
already
> deliver 5
already
";

// All pieces come backwards, and each comes twice.
pub(crate) const ALL_TWICE: &str = "\
> lead 1 127.0.0.1:9001 0 0 0
up 1
> boot 2 127.0.0.1:9002 10 0 0 partial
up 2
> boot 3 127.0.0.1:9003 20 0 0 partial
up 3
> join 2
told
#1 2>1 report 1
> join 3
told
#2 3>1 report 1
> deliver 1
noted 1 0 0 0
> deliver 2
noted 1 0 0 0
> close
accepted 2 join
accepted 3 join
closed 1
#3 1>2 snap 1 0
#4 1>3 snap 1 0
> deliver 3
jumped 1
> deliver 4
jumped 1
> close
closed 2
#5 1>2 piece 2 0 0
#6 1>3 piece 2 0 0
#7 1>2 piece 2 0 1
#8 1>3 piece 2 0 2
#9 1>2 piece 2 0 3
#10 1>3 piece 2 0 3
> deliver 10
held
> deliver 10
already
> deliver 9
held
> deliver 9
already
> deliver 8
held
#11 3>1 piece 2 0 2
#12 3>2 piece 2 0 2
> deliver 8
already
> deliver 7
held
#13 2>1 piece 2 0 1
#14 2>3 piece 2 0 1
> deliver 7
already
> deliver 6
advanced 2
> deliver 6
already
> deliver 5
advanced 2
> deliver 5
already
> print 1
epoch 2
region 0 3 30 0 0 0 0 0 20 0 0
global 0 1 127.0.0.1:9001 0 0 0
global 0 2 127.0.0.1:9002 10 0 0
global 0 3 127.0.0.1:9003 20 0 0
member 0 1 127.0.0.1:9001 0 0 0
member 0 2 127.0.0.1:9002 10 0 0
member 0 3 127.0.0.1:9003 20 0 0
inter 0 0
inter 1 0
inter 2 0
inter 3 0
local 0 0 1 1>2 1>3
local 0 1 2 2>1 2>3
local 0 2 3 3>1 3>2
digest 92cb9d0bbe2b8049b64cf6e595004900dff6aeaf739a2a1b58e2bc5e398b21be
end
> print 2
epoch 2
region 0 3 30 0 0 0 0 0 20 0 0
global 0 1 127.0.0.1:9001 0 0 0
global 0 2 127.0.0.1:9002 10 0 0
global 0 3 127.0.0.1:9003 20 0 0
member 0 1 127.0.0.1:9001 0 0 0
member 0 2 127.0.0.1:9002 10 0 0
member 0 3 127.0.0.1:9003 20 0 0
inter 0 0
inter 1 0
inter 2 0
inter 3 0
local 0 0 1 1>2 1>3
local 0 1 2 2>1 2>3
local 0 2 3 3>1 3>2
digest 92cb9d0bbe2b8049b64cf6e595004900dff6aeaf739a2a1b58e2bc5e398b21be
end
> print 3
epoch 2
region 0 3 30 0 0 0 0 0 20 0 0
global 0 1 127.0.0.1:9001 0 0 0
global 0 2 127.0.0.1:9002 10 0 0
global 0 3 127.0.0.1:9003 20 0 0
member 0 1 127.0.0.1:9001 0 0 0
member 0 2 127.0.0.1:9002 10 0 0
member 0 3 127.0.0.1:9003 20 0 0
inter 0 0
inter 1 0
inter 2 0
inter 3 0
local 0 0 1 1>2 1>3
local 0 1 2 2>1 2>3
local 0 2 3 3>1 3>2
digest 92cb9d0bbe2b8049b64cf6e595004900dff6aeaf739a2a1b58e2bc5e398b21be
end
";

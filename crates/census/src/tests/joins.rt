// How nodes become members, and what becomes of snapshots and joins that come late or twice.

pub(crate) const LEADER_ALONE: &str = "\
> lead 1 127.0.0.1:9001 0 0 0
up 1
> print 1
epoch 0
region 0 1 0 0 0 0 0 0 0 0 0
global 0 1 127.0.0.1:9001 0 0 0
member 0 1 127.0.0.1:9001 0 0 0
inter 0 0
inter 1 0
inter 2 0
inter 3 0
local 0 0 1
digest a9d1918a6e3b2d76294afc029d43e1aeecfeff4be8e315c234018ddf4c869733
end
";

// The first joiner comes to epoch 2 by three pieces.
pub(crate) const TWO_JOINERS: &str = "\
> lead 1 127.0.0.1:9001 0 0 0
up 1
> boot 2 127.0.0.1:9002 10 0 0 partial
up 2
> join 2
told
#1 2>1 report 1
> deliver 1
noted 1 0 0 0
> close
accepted 2 join
closed 1
#2 1>2 snap 1 0
> deliver 2
jumped 1
> print 2
epoch 1
region 0 2 10 0 0 0 0 0 10 0 0
global 0 1 127.0.0.1:9001 0 0 0
global 0 2 127.0.0.1:9002 10 0 0
member 0 1 127.0.0.1:9001 0 0 0
member 0 2 127.0.0.1:9002 10 0 0
inter 0 0
inter 1 0
inter 2 0
inter 3 0
local 0 0 1 1>2
local 0 1 2 2>1
digest 511cc065f39486adabd8e88db71614e09b8bec2d83e31688b2cb84208faac7dc
end
> boot 3 127.0.0.1:9003 20 0 0 partial
up 3
> join 3
told
#3 3>1 report 1
> deliver 3
noted 1 0 0 0
> close
accepted 3 join
closed 2
#4 1>3 snap 2 0
#5 1>2 piece 2 0 0
#6 1>2 piece 2 0 1
#7 1>2 piece 2 0 2
#8 1>2 piece 2 0 3
> deliver 4
jumped 2
> deliver 4
stale 2 2
> deliver 2
stale 1 1
> print 2
epoch 1
region 0 2 10 0 0 0 0 0 10 0 0
global 0 1 127.0.0.1:9001 0 0 0
global 0 2 127.0.0.1:9002 10 0 0
member 0 1 127.0.0.1:9001 0 0 0
member 0 2 127.0.0.1:9002 10 0 0
inter 0 0
inter 1 0
inter 2 0
inter 3 0
local 0 0 1 1>2
local 0 1 2 2>1
digest 511cc065f39486adabd8e88db71614e09b8bec2d83e31688b2cb84208faac7dc
end
> deliver 5
held
> deliver 6
held
#9 2>1 piece 2 0 1
> deliver 7
advanced 2
#10 2>1 piece 2 0 3
> deliver 2
stale 2 1
> print 1
epoch 2
region 0 3 30 0 0 0 0 0 20 0 0
global 0 1 127.0.0.1:9001 0 0 0
global 0 2 127.0.0.1:9002 10 0 0
global 0 3 127.0.0.1:9003 20 0 0
member 0 1 127.0.0.1:9001 0 0 0
member 0 2 127.0.0.1:9002 10 0 0
member 0 3 127.0.0.1:9003 20 0 0
inter 0 0
inter 1 0
inter 2 0
inter 3 0
local 0 0 1 1>2 1>3
local 0 1 2 2>1 2>3
local 0 2 3 3>1 3>2
digest 92cb9d0bbe2b8049b64cf6e595004900dff6aeaf739a2a1b58e2bc5e398b21be
end
> print 2
epoch 2
region 0 3 30 0 0 0 0 0 20 0 0
global 0 1 127.0.0.1:9001 0 0 0
global 0 2 127.0.0.1:9002 10 0 0
global 0 3 127.0.0.1:9003 20 0 0
member 0 1 127.0.0.1:9001 0 0 0
member 0 2 127.0.0.1:9002 10 0 0
member 0 3 127.0.0.1:9003 20 0 0
inter 0 0
inter 1 0
inter 2 0
inter 3 0
local 0 0 1 1>2 1>3
local 0 1 2 2>1 2>3
local 0 2 3 3>1 3>2
digest 92cb9d0bbe2b8049b64cf6e595004900dff6aeaf739a2a1b58e2bc5e398b21be
end
> print 3
epoch 2
region 0 3 30 0 0 0 0 0 20 0 0
global 0 1 127.0.0.1:9001 0 0 0
global 0 2 127.0.0.1:9002 10 0 0
global 0 3 127.0.0.1:9003 20 0 0
member 0 1 127.0.0.1:9001 0 0 0
member 0 2 127.0.0.1:9002 10 0 0
member 0 3 127.0.0.1:9003 20 0 0
inter 0 0
inter 1 0
inter 2 0
inter 3 0
local 0 0 1 1>2 1>3
local 0 1 2 2>1 2>3
local 0 2 3 3>1 3>2
digest 92cb9d0bbe2b8049b64cf6e595004900dff6aeaf739a2a1b58e2bc5e398b21be
end
";

pub(crate) const JOINED_AGAIN: &str = "\
> lead 1 127.0.0.1:9001 0 0 0
up 1
> boot 2 127.0.0.1:9002 10 0 0 partial
up 2
> join 2
told
#1 2>1 report 1
> join 2
told
#2 2>1 report 1
> deliver 1
noted 1 0 0 0
> deliver 2
noted 0 0 1 0
> close
accepted 2 join
closed 1
#3 1>2 snap 1 0
> join 2
told
#4 2>1 report 1
> deliver 4
noted 1 0 0 0
> close
refused 2 join present
closed 2
#5 1>2 piece 2 0 0
#6 1>2 piece 2 0 1
#7 1>2 piece 2 0 2
#8 1>2 piece 2 0 3
> deliver 3
jumped 1
> join 2
member
> print 2
epoch 1
region 0 2 10 0 0 0 0 0 10 0 0
global 0 1 127.0.0.1:9001 0 0 0
global 0 2 127.0.0.1:9002 10 0 0
member 0 1 127.0.0.1:9001 0 0 0
member 0 2 127.0.0.1:9002 10 0 0
inter 0 0
inter 1 0
inter 2 0
inter 3 0
local 0 0 1 1>2
local 0 1 2 2>1
digest 511cc065f39486adabd8e88db71614e09b8bec2d83e31688b2cb84208faac7dc
end
";

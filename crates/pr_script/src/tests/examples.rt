// The scripts of examples/, as they stand there.

pub const HOME: &[u8] = b"\
# A home server, a laptop and a phone share mail and photos.\n\
# The phone is interested in mail alone: the stream to it carries mail and its bodies, and of photos\n\
# only that something changed. So its reads of mail are answered, and a read of a photo is imprecise.\n\
node home mail/* photo/*\n\
node laptop mail/* photo/*\n\
node phone mail/*\n\
client u home\n\
client v laptop\n\
client w phone\n\
stream hl home laptop * bodies\n\
stream hp home phone mail/* bodies\n\
stream lh laptop home * bodies\n\
\n\
attach hl\n\
attach hp\n\
attach lh\n\
write u mail/1 \"Hello\"\n\
write u photo/1 \"beach\"\n\
write u photo/2 \"hill\"\n\
write v mail/2 \"Draft\"\n\
settle\n\
read w mail/2\n\
expect value \"Draft\"\n\
read w photo/1\n\
expect imprecise\n\
write w mail/1 \"Read\"\n\
read w mail/1\n\
expect value \"Read\"\n\
";

pub const CACHE: &[u8] = b"\
# An edge cache holds the popular pages of an origin.\n\
# The stream is filtered to page/hot/*, with bodies. The cache answers those pages, knows that the others\n\
# changed, and forgets a body when it is short of room: the read then says which write it lacks.\n\
node origin page/hot/* page/cold/*\n\
node edge page/hot/*\n\
client author origin\n\
client reader edge\n\
stream push origin edge page/hot/* bodies\n\
\n\
attach push\n\
write author page/hot/index \"welcome\"\n\
write author page/cold/terms \"long\"\n\
settle\n\
read reader page/hot/index\n\
expect value \"welcome\"\n\
read reader page/cold/terms\n\
expect imprecise\n\
drop edge page/hot/index\n\
read reader page/hot/index\n\
expect body\n\
delete author page/hot/index\n\
settle\n\
read reader page/hot/index\n\
expect gone\n\
";

pub const RING: &[u8] = b"\
# Three nodes in a ring, each sending to the next.\n\
# A write at one node reaches the one behind it in two hops, and every node covers it in the end.\n\
node A a/*\n\
node B b/*\n\
node C c/*\n\
client p A\n\
client q B\n\
client r C\n\
stream s A B *\n\
stream t B C *\n\
stream u C A *\n\
\n\
attach s\n\
attach t\n\
attach u\n\
write p a/1 \"\"\n\
write q b/1 \"\"\n\
write r c/1 \"\"\n\
settle\n\
read p c/1\n\
expect body\n\
read q c/1\n\
expect body\n\
state C\n\
";

pub const CHECKPOINT: &[u8] = b"\
# A source truncates its log, so that a stream that begins late cannot be served from it.\n\
# The checkpoint gives the destination what the log no longer has, and the stream goes on from there.\n\
node old *\n\
node new *\n\
client w old\n\
client r new\n\
stream s old new * bodies\n\
\n\
write w doc/1 \"first\"\n\
write w doc/2 \"second\"\n\
write w doc/1 \"third\"\n\
cut old\n\
attach s\n\
send s\n\
checkpoint s\n\
deliver s 1\n\
flow s 3\n\
read r doc/1\n\
expect value \"third\"\n\
conflicts new doc/1\n\
state new\n\
";

pub const PHASE: &[u8] = b"\
# Jobs that run beside each other: two clients write and read while two streams flow.\n\
# Each client's lines are one job, in their order, and each flow is a job of its own. What a client wrote it\n\
# reads, whatever the others do; what it reads of the other depends on the turns that were made.\n\
node left *\n\
node right *\n\
client l left\n\
client r right\n\
stream lr left right * bodies\n\
stream rl right left * bodies\n\
\n\
attach lr\n\
attach rl\n\
phase\n\
write l note/left \"from the left\"\n\
read l note/left\n\
flow lr 4\n\
write r note/right \"from the right\"\n\
flow rl 4\n\
read r note/right\n\
delete r note/right\n\
end\n\
settle\n\
# A client that moves is answered only where its new node knows what it has seen.\n\
write l note/last \"moved\"\n\
move l right\n\
read l note/last\n\
expect behind\n\
settle\n\
read l note/last\n\
expect value \"moved\"\n\
";

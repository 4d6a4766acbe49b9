// Long scripts, as they are printed.

// Three nodes in a ring.
pub const HOPS: &[u8] = b"\
node A a/*\n\
node B b/*\n\
node C c/*\n\
client p A\n\
client q B\n\
client r C\n\
stream s A B *\n\
stream t B C *\n\
stream u C A *\n\
attach s\n\
attach t\n\
attach u\n\
write p a/1 \"\"\n\
write q b/1 \"\"\n\
write r c/1 \"\"\n\
settle\n\
read p c/1\n\
read q c/1\n\
state C\n\
";

// A home server, a laptop and a phone.
pub const DEVICES: &[u8] = b"\
node home mail/* photo/*\n\
node laptop mail/* photo/*\n\
node phone mail/*\n\
client u home\n\
client v laptop\n\
client w phone\n\
stream hl home laptop * bodies\n\
stream hp home phone mail/* bodies\n\
stream lh laptop home * bodies\n\
attach hl\n\
attach hp\n\
attach lh\n\
write u mail/1 \"Hello\"\n\
write u photo/1 \"beach\"\n\
write u photo/2 \"hill\"\n\
write v mail/2 \"Draft\"\n\
settle\n\
read w mail/2\n\
read w photo/1\n\
write w mail/1 \"Read\"\n\
read w mail/1\n\
";

// Deletes, at their node and behind a stream.
pub const DELETES: &[u8] = b"\
node A *\n\
node B *\n\
client c A\n\
client d B\n\
stream s A B * bodies\n\
attach s\n\
write c a/x \"hi\"\n\
delete c a/x\n\
read c a/x\n\
expect gone\n\
flow s 3\n\
read d a/x\n\
delete c a/z\n\
";

// A client that moves is answered only where its node knows what it has seen.
pub const MOVES: &[u8] = b"\
node A *\n\
node B *\n\
client c A\n\
stream s A B *\n\
write c a/x \"1\"\n\
move c B\n\
read c a/x\n\
expect behind\n\
write c a/y \"2\"\n\
attach s\n\
flow s 1\n\
read c a/x\n\
write c a/y \"2\"\n\
move c A\n\
read c a/y\n\
";

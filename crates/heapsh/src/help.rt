//! What the program prints about itself, and the forms of its commands.

pub const HELP: &str = "\
usage: heapsh          reads commands, one a line, and prints the reply to each; with a prompt
                       where the input is a terminal
       heapsh prompt   the same, always with a prompt
       heapsh script   reads a script and prints it with the replies: lines that begin with '> '
                       are commands, '#' begins a remark, other lines are earlier replies

The command help lists the commands, and help WORD shows those that begin with WORD.
";

pub const VERSION: &str = "heapsh 0.1.0-dev\n";

/// What `help` prints.
pub const COMMANDS: &str = "\
help WORD   the forms of the commands that begin with WORD
open close aside back alike                  heaps
new arr set nil mov get put len same say swap cas idle   commands (docs/FORMAT.md)
repeat                                       commands many times
rate cycle free in_use live_at_start asked unused
units_made units_left objects_made objects_left commands_left life_left   gauges
most count                                   operations of a command
register fields text dot                     what the heap shows
save bytes flip cut load damage              heaps as bytes
renew renewal room copy finish               a new heap in place of another
reading read plan onto                       the same, planned in pieces
ring queue map alarms records trend          structures
record                                       the commands of a heap as a job
shared worker                                a heap of several threads, event by event
system                                       a job, turn by turn
A CONFIG is 2 blocks 64 live 20 object 2 shared 0 (1: blocks of four words), and threads 3.";

/// The forms of all commands, one a line: capitals are operands, ` : ` begins what it is for.
pub const FORMS: &str = "\
help WORD : shows the forms of the commands that begin with this word
open CONFIG : opens a heap
close : closes the heap
aside NAME : keeps the heap under a name
back NAME : takes back the heap of this name
alike NAME : compares it with that heap, up to the names of objects
new D FIELDS : makes a record
arr D ELEMENTS : makes an array
set D NUMBER : puts a number into a register
nil D : puts nil into a register
mov D S : copies register S to register D
get D S I : loads field I of the object in register S into register D
put S I V : stores register V in field I of the object in register S
len S : the length of the object in register S
same A B : whether two registers hold the same
say S : what a register holds
swap S I V : exchanges field I with register V
cas S I A V : stores register V in field I if that equals register A
idle UNITS : makes units of marking or sweeping
repeat TIMES COMMAND : commands with ; between them, up to the first full or refusal
rate : units that an allocation makes for each block
cycle : the number of the cycle
free : free blocks
in_use : blocks that are not free
live_at_start : blocks that were reachable when the cycle began
asked : commands that were done
unused : whether none was done
units_made : units of marking and sweeping so far
units_left : those that the life allows
objects_made : commands so far that make an object
objects_left : those that the life allows
commands_left : commands that the life allows
life_left : what is left of its life, in millionths
most COMMAND : the most operations of a command
count open CONFIG : opens a heap that counts its operations
count COMMAND : how many operations a command takes
register R : what a register holds, without a command
fields R : the fields of its object, without a command
text : the graph that registers reach
dot : the same as a drawing
save : keeps the heap as bytes
bytes : prints these bytes
flip PLACE MASK : changes bits of a byte
cut LENGTH : keeps so many bytes
load CONFIG : opens a heap from the bytes
damage MASK CONFIG : counts which cut or changed bytes load
renew CONFIG : a new heap with what the heap shows
renewal CONFIG : begins to copy the heap to a new one
room COMMANDS : makes room for commands that the copy follows
copy COMMANDS : does so many commands of the copy
finish : ends the copy, if it is whole
reading : begins to read the heap
read OBJECTS : reads so many objects
plan TURNS : makes so many turns of the plan of a copy
onto heap NAME : begins the planned copy on a heap that was set aside
onto ROOM CONFIG : begins it on a heap of its own
ring new BASE SPARE SIZE : a ring in two registers
ring push FROM : appends a register's value
ring get I TO : the value that was pushed before I others
ring len : how many values it has
queue new BASE SPARE SIZE : a queue in two registers
queue push FROM : appends a register's value
queue pop TO : removes the oldest value
queue len : how many values it has
map new BASE SPARE SIZE : a map in two registers
map insert KEY FROM : puts a register's value under a key
map get KEY TO : the value of a key
map remove KEY TO : removes a key
map nth I TO : the key and value at a place
map len : how many keys it has
alarms new BASE SPARE SIZE : an alarm list in two registers
alarms raise NUMBER : raises an alarm
alarms acknowledge NUMBER : acknowledges it
alarms clear NUMBER : removes it
alarms get I : the alarm at a place
alarms len : how many there are
records new BASE SPARE SIZE : a list of records in two registers
records push KEY FROM : appends a number and a register's value
records get I TO : the record that was pushed before I others
records len : how many there are
trend open SIZE CONFIG : a trend on a heap of its own
trend push VALUE : appends a sample
trend push_alarm VALUE : appends a sample with an alarm
trend get I : the sample that was pushed before I others
trend alarm I : the alarm that was pushed before I others
trend len : how many samples it has
trend alarms : how many alarms it has
trend pushed : how many samples were pushed
record open CONFIG : opens a heap that writes down its commands
record failing CALL CONFIG : the same, where the write of this number fails
record end : prints the record, and opens its heap
record asked : how many commands its heap has done
record recorded : how many commands are written down
record COMMAND : writes down a command and does it
shared open CONFIG : opens a heap with a worker for each thread
shared turns TIMES COMMAND : all workers begin a command and make an event each in turn
shared close some THREAD : closes it with some workers; more threads may follow
shared close : closes it with all workers
worker THREAD start COMMAND : announces a command, and makes no event
worker THREAD poll EVENTS : makes so many events, up to the first that waits
worker THREAD do COMMAND : starts a command and polls it to its end
worker THREAD stamp : draws a stamp
worker THREAD note : makes a note of what it has seen
worker THREAD learn : learns the last note
worker THREAD lose : drops the worker with its command
worker THREAD rate : units that an allocation makes for each block
worker THREAD asked : commands so far
worker THREAD units_made : units so far
worker THREAD units_left : those that the life allows
worker THREAD objects_made : commands so far that make an object
worker THREAD objects_left : those that the life allows
worker THREAD commands_left : commands that the life allows
system open CONFIG : begins to write a job
system thread THREAD TIMES COMMAND : appends commands with ; between them to a trace
system begin : opens the heap of the job, with all threads at rest
system turn THREAD : makes the next event of a thread, and prints it
system turns THREAD TURNS : gives a thread so many turns, and prints what the last was
system until THREAD ENTRIES : gives it turns until its log has so many entries
system black THREAD : gives it turns until it is done, and prints which blocks became black
system replay serial TURNS : gives turns to the least thread that is not done
system replay robin TURNS : gives turns to all threads, one after the other
system replay key KEY TURNS : gives turns to drawn threads
system next THREAD : the operation of the next event
system size : how many words the heap has
system words FIRST COUNT : words of the heap
system colours FIRST COUNT : colour words of blocks
system entries THREAD : how many entries the log of a thread has
system entry THREAD ENTRY : an entry of its log
system log THREAD : all entries of its log
system count THREAD REPLY : how many entries have this reply
system paid THREAD : units that are paid for the command in hand
system rest THREAD : whether a thread is at rest
system order : the threads of the entries so far, and the starts of cycles
system finish : ends a job whose threads are done";

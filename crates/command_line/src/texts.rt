//! The texts of `--help` and `--version`. Lines are broken by hand, below 80 columns.

pub(crate) const ABOUT: &str = "\
Replay a recorded TCP session through Toxiproxy's faults, offline: the same
bytes each time. Each scenario, a list of proxies, gives the capture of what
each side would have received, and a report with a line per connection.";

pub(crate) const VERSION: &str = "1.0.0";

pub(crate) const FORMS: &str = "\
1.0.0
captures:  classic pcap 2.4 in microseconds or nanoseconds, Ethernet,
           IPv4, TCP; or a dump of one as hexadecimal digits
scenarios: JSON in the form of Toxiproxy's populate call, with each proxy's
           toxics in its field \"toxics\"";

pub(crate) const CAPTURE: &str = "\
The capture: a classic pcap file, or its bytes as
hexadecimal digits; at most 2^30 bytes
[default: standard input]";

pub(crate) const SCENARIO: &str = "\
A scenario, a JSON array of proxies; may be repeated,
up to 256 times, for one output each
[default: one scenario without proxies]";

pub(crate) const HOST: &str = "\
The IPv4 address of a host that upstreams name, as in
redis=10.0.0.9; may be repeated, each name once";

pub(crate) const SEED: &str = "\
What jitter, slices and toxicity are drawn from, 0 to
2^64 - 1; equal seeds draw the same";

pub(crate) const WORKERS: &str = "\
How many threads work, 1 to 16; no output depends
on it";

pub(crate) const CUT: &str = "\
How many records of the capture a thread reads at
once, 1 to 1048576; no output depends
on it";

pub(crate) const OUT: &str = "\
An existing folder for the outputs: 0000.pcap and
0000.txt of the first scenario, then 0001.pcap;
files of these names are replaced, but none that
was read
[default: the reports alone, on standard output]";

// The given texts, and then the end that both forms of the help share.
macro_rules! before_ending {
    ($($part:literal),*) => {
        concat!($($part,)* "\
Exit status:
  0  every output was written
  1  refused; a line on standard error says why, such as
     refused 15 UnknownHost scenario 0 proxy 0
  2  usage error; see standard error

Examples:
  What was recorded, as a report:
    toxicap --capture session.pcap

  Two scenarios, with the captures of what each side would have received:
    toxicap --capture session.pcap --scenario slow.json \\
      --scenario cut.json --host redis=10.0.0.9 --seed 7 --out outputs")
    };
}

pub(crate) const AFTER: &str = before_ending!();

pub(crate) const LONG_AFTER: &str = before_ending!(
    "\
Scenarios:
  A whole file: an array of proxies, each for a server of the capture.

    [
      {
        \"name\": \"redis\",
        \"listen\": \"127.0.0.1:26379\",
        \"upstream\": \"10.77.0.3:6379\",
        \"toxics\": [
          {
            \"type\": \"latency\",
            \"stream\": \"upstream\",
            \"attributes\": {\"latency\": 100, \"jitter\": 20}
          },
          {
            \"type\": \"limit_data\",
            \"attributes\": {\"bytes\": 4096}
          }
        ]
      }
    ]

  upstream is the server as the capture has it: an address, or a name that
  --host gives one. listen is not used, and may be left out. A connection
  goes through the first proxy whose upstream is its server; with none it
  stays as recorded. \"enabled\": false in a proxy refuses its connections.
  Unknown fields are ignored.

",
    "\
Toxics:
  Each is an object of a proxy's array \"toxics\", as in

    {\"type\": \"latency\", \"stream\": \"upstream\", \"toxicity_ppm\": 500000,
     \"attributes\": {\"latency\": 100, \"jitter\": 20}}

  The stream is upstream or downstream, by default downstream. A toxic works
  on toxicity_ppm of a million connections, by default on all; \"toxicity\",
  0 or 1, may stand in its place. Attributes are whole numbers:

  Type        Attribute       Range            Default  What it is
  latency     latency         0 to 10^9 ms     0        bytes are late
              jitter          0 to 10^9 ms     0        more or less
  bandwidth   rate            1 to 10^6 KB/s   -        bytes of a second
  slow_close  delay           0 to 10^9 ms     0        the close is late
  timeout     timeout         0 to 10^9 ms     0        no bytes, a close
  reset_peer  timeout         0 to 10^9 ms     0        bytes, then a reset
  slicer      average_size    1 to 10^9 bytes  -        bytes of a slice
              size_variation  0 to 10^9 bytes  0        more or less
              delay           0 to 10^9 us     0        between two slices
  limit_data  bytes           0 to 10^12       0        a close after them

  ms is milliseconds, us microseconds, KB 1000 bytes; - is for a required
  attribute. size_variation is below average_size. The type timeout with 0
  never closes.

",
    "\
Reports:
  The first two lines count the capture's records by what they are, and its
  connections. Then there is a line for each connection, as

    0 10.77.0.1:59690 > 10.77.0.2:80 proxy 0 up 82/82/0 close+3610 max 0
    down 100/216/0 close+3610 max 0

  but all on one line: its number, client and server, vlan and its number if
  it has a VLAN, and the number of the proxy that it goes through, - for
  none. up is what the client sent, down what the server sent: bytes
  delivered/recorded/lost after a gap of the capture or a FIN; its end, by
  its time after the opening SYN; and the longest that a byte was held back.

  The end is fin+N where the peer closes, close+N where a toxic does, reset+N
  for a reset, open for none, refused where the proxy is disabled. Times are
  microseconds, or nanoseconds where the capture counts them.

",
    "\
Refusals:
  A line on standard error has the number, the name and the place: records,
  hosts, scenarios, a scenario's proxies, a proxy's toxics and the bytes of a
  dump count from 0. On a terminal, or if TOXICAP_HINTS of the environment
  is 1, a second line names the file and the field, and says what to do.

   1 ShortHeader       the capture has fewer than 24 bytes
   2 BadMagic          it is no classic pcap: pcapng, or gzipped
   3 BadVersion        it is of another version than 2.4
   4 BadLink           it is not of Ethernet
   5 RecordTooLong     a record announces more than 262144 bytes
   6 CaptureTooLong    a capture, dump or scenario has more than 2^30 bytes
  10 NotJson           a scenario is no JSON
  11 NotArray          it is no array
  12 BadMember         a field is missing or of the wrong kind
  13 DuplicateProxy    an earlier proxy has the name
  14 BadUpstream       an upstream is not HOST:PORT
  15 UnknownHost       its host is no address, and no --host names it
  16 UnknownToxic      a type is none of the seven
  17 BadStream         a stream is neither upstream nor downstream
  18 DuplicateToxic    an earlier toxic of the proxy has the name
  19 AttributeRange    an attribute is no whole number in its range
  20 TooMany           more than 64 proxies, or than 8 toxics of a stream
  21 BadToxicity       toxicity is not 0 or 1, or its ppm above a million
  22 TooManyScenarios  there are more than 256
  23 BadHost           a --host is not NAME=ADDR, or was given before
  40 Memory            memory was refused
  55 BadDump           a byte of a dump is no hexadecimal digit
  60 ShelfFailed       a file of --out could not be stored, after N others
  61 ReadFailed        a file cannot be opened or read
  62 WriteFailed       standard output took no more

",
    "\
Documents:
  docs/README.md lists the pages by task: recording, scenarios, reports, each
  refusal with its remedy. examples/ has scenarios for each toxic, and a JSON
  Schema of scenario files; tools/ has tools that read reports. All are in the
  repository, in an unpacked release, and in /usr/share/doc/toxicap of the
  package.

"
);

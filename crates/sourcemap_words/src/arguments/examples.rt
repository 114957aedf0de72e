//! What is shown below the help of each command: notes, the keys of `--json`, and examples of its use. Each paragraph is one line.

const TRACE: &str =
    "Sources are named from the current folder if they are in it, else from the root of the file system.

Keys of --json, an object a line:
  line, column              the position; of --reverse the original one
  found                     original, unmapped or nothing
  source                    the source
  sourceLine, sourceColumn  the original position
  name                      the name that the mapping has, if it has one
  generated                 of --reverse: a list of positions, each with line and column

Examples:
  sourcemap trace app.js.map 0:120
  sourcemap trace --one-based --context 2 app.js.map 1:121
  sourcemap trace app.js.map < positions.txt
  sourcemap trace --reverse src/a.ts:11:4 app.js.map";

const RESOLVE: &str =
    "A frame without a map stays as it is, and so does all other text. Lines and columns count from 1, as in stack traces. Each line is answered as it comes. A frame names the file itself, or by its whole path one in the root; the path of a URL is what is behind its host. Of frames of another machine the folder is found if its path ends in the name of the root, or if two files below it are in the root.

Sources are named from the current folder if they are in it, else from the root of the file system. Where the source of a map is in its ignore list, the place is grey on a terminal.

If a map has scopes, frames name the functions of the source. Each call that was inlined has a line of its own below the frame, with all that is in front of the frame, as the time in a log. A frame that the source does not have is left out, if it is alone in its row. If a map has no scopes, a function with a name in the code has the name of the mapping at that, or else of the mapping at the call of it, where the next line is a frame of the same code.

Keys of --json, an object a line; numbers count from 1:
  text                      the line
  resolved                  the line, its frames resolved; no key if it is left out
  file, line, column        of its frame: what it names
  matched, prefix           how its code was found, if not by its whole path: prefix, maps or debugId
  map                       the map
  found                     original, unmapped or nothing
  source                    the source
  sourceLine, sourceColumn  the original position
  name                      the name that the mapping has, if it has one
  function                  the name of the function in the source
  callers                   the calls that were inlined: source, sourceLine, sourceColumn, function
  ignored                   true if the map ignores the source
  hidden                    true if the row of the frame is left out
  why                       why the frame stays as it is
  frames                    of several frames a list of objects with these keys, from file on

Examples:
  sourcemap resolve --root dist trace.txt
  sourcemap resolve --root dist --follow --context 2 --hide-ignored trace.txt
  node app.js 2>&1 | sourcemap resolve --root dist --explain
  tail -f log | sourcemap resolve --prefix /usr/src/app=dist --prefix https://cdn.example/v2=public";

const CHECK: &str =
    "A folder stands for the files in it and below it, in order of their paths: codes (.js, .mjs, .cjs, .css) that name a map or have one; maps (.map) that are not those of such codes; compiled maps (.map.smc). Folders node_modules below it are left out, and links. Without --root, a folder that is not in the current one is the root of its files. A pattern stands for the codes, maps and compiled maps that it matches; a map of such a code counts once. In it `*` stands for any characters of a name, `?` for one, `**` for any number of folders, and all else for itself. Links and folders node_modules are left out, except those that the pattern names before its first `*` or `?`. It is an error if no file matches.

Each finding but the summary has a level and a code:
  error, where the map is wrong or a lookup may be
    bad-compiled                 a compiled map cannot be read, or is damaged
    bad-member                   a member is missing, or of the wrong type
    bad-scopes                   scopes have a fault
    bad-segment                  a segment of the mappings has a fault
    cut-section                  tokens are behind the beginning of the next section
    debug-id-mismatch            the code and the map have different debug ids
    different-compiled           a compiled map is not what its map is compiled to
    name-out-of-range            tokens have a name that is not there
    no-json                      the text is not JSON
    no-map                       a code has no map, or a folder none
    past-code                    tokens are past the end of the code or of a line
    past-content                 tokens are past the end of a content or of a line of it
    scopes-source-out-of-range   scopes have a source that is not there
    section-order                sections are not in order
    source-out-of-range          tokens have a source that is not there
    stale-compiled               a compiled map was made of another text than its map has
    too-large                    a number is too large
    unreadable                   the map of a compiled map cannot be read
    unsorted                     tokens are not in order
    wrong-version                the version is not 3
  warning, where something is mended, or seems to be of another build
    bad-content                  an entry of sourcesContent is neither a text nor null
    bad-contents                 sourcesContent is no list
    bad-ignore-list              an ignore list is no list
    bad-ignored-id               an entry of an ignore list is no source
    byte-order-mark              there is one in front
    data-url                     the text is a data URL
    inside-words                 many tokens are in the middle of words of the code
    json-prefix                  the first line begins with )]}'
    no-sources                   sources is missing
    null-names                   names is null
    null-source                  a source is null
    shifted                      the lines of contents have moved: names are further down or up
    version-form                 the version is 3.0 or the text 3
  note
    content-differs              contents are not those of the files of their sources
    missing-content              sources have no content
    name-differs                 contents do not have names where the map says
    stale-beside                 the compiled map beside was made of another text
    uncompared                   the map of a compiled map is not there
    unneeded                     nothing needs some tokens, names or sources
    unread-scopes                the scopes of an indexed map are not read
    unreadable-beside            the compiled map beside cannot be read

Keys of --json, an object a line:
  file         the map or the code
  kind         wrong, note or summary
  code, level  of all but a summary: see above
  text         what is printed without --json

Examples:
  sourcemap check dist
  sourcemap check --level error 'dist/**/*.js'
  sourcemap check --json app.js.map";

const REMAP: &str = "Keys of --json, an object:
  output                  the file that is written
  sources, names, tokens  how many the map has
  inputs                  through how many maps it is traced

Examples:
  sourcemap remap app.min.js.map app.js=app.js.map -o app.map
  sourcemap remap --follow --simplify dist/app.js.map > app.map";

const BUNDLE: &str =
    "The map is written to OUT.map, and OUT names it. Of a link OUT is the file that it leads to.

Keys of --json, an object a line:
  file  the code
  map   its map, if it has one
  line  where it begins in the written code

Examples:
  sourcemap bundle a.js b.js -o out.js
  sourcemap bundle --wrap '(function () {' '})();' lib/*.js -o out.js";

const COMPILE: &str =
    "A compiled map can be given to each command that takes a map, except this one. `resolve` uses one that lies beside its map, if it was made of a map as long as that, and is no older or knows its SHA-256; else it says that the compiled map is out of date. Scopes are read from the map all the same, since compiled maps have none. `check X.map.smc` compares it with X.map; `resolve` looks for no damage.

Keys of --json, an object a line:
  map     the map
  output  the file that is written
  bytes   its length

Examples:
  sourcemap compile dist/*.js.map
  sourcemap compile --contents-apart dist/*.js.map
  sourcemap check dist/*.smc";

const EXTRACT: &str =
    "The path of a file is that of its source, without the scheme of a URL, below OUT. A path that would lead out of OUT is put below it, `_` for each folder that it goes up. A file that is there with another content stays, unless there is --force. Links are not followed.

Keys of --json, an object a line:
  source       the source
  file, bytes  the file that it is written to, and its length
  missing      else why it has no file

Examples:
  sourcemap extract dist/app.js -o src
  sourcemap extract --json dist/*.js.map -o src";

const EMBED: &str =
    "Contents that the map has stay. The others are read from the files that sources name, by file: URLs or from the folder of the map, where these are in the root or in that folder. With --from they are read where `extract` puts them below DIR.

Keys of --json, an object a line:
  source       a source without a content
  file, bytes  the file that its content is read from, and its length
  missing      else why none is found

Examples:
  sourcemap embed dist/app.js.map
  sourcemap embed --from src dist/app.js.map
  sourcemap embed --root .. dist/app.js -o full.map";

const STRIP: &str = "Keys of --json, an object:
  map       the map
  output    the file that is written
  contents  how many contents the map had
  bytes     the length of the file

Examples:
  sourcemap strip dist/app.js.map
  sourcemap strip dist/app.js.map -o public/app.js.map";

const INLINE: &str =
    "The data URL is base64 of the map as it is written, and replaces the URL in the comment that names the map. Sources that are relative to another folder are made relative to that of the code.

Keys of --json, an object a line:
  code   the code
  map    its map
  bytes  the length of the map

Examples:
  sourcemap inline dist/app.js
  sourcemap inline --maps maps dist/*.js dist/*.css";

const EXTERNAL: &str =
    "The map of CODE is written to CODE.map, as it stands in the data URL, and the comment names it. Relative sources are made relative to the folder of -o. A file that is there with another content stays, unless there is --force. Links are not followed.

Keys of --json, an object a line:
  code   the code
  map    the file that the map is written to
  bytes  its length

Examples:
  sourcemap external dist/app.js
  sourcemap external dist/*.js -o maps";

const DEBUG_ID: &str =
    "The debug id of a code is that of its last comment `//# debugId=UUID`, that of a map its member debugId, or else debug_id. With --inject what the map has counts, or else what the code has; without either it is a UUID of version 8, made of the SHA-256 of the map's text without its member debugId: the same map has the same one. Nothing else changes, and no code moves.

Keys of --json, an object a line:
  code, map      the code and its map
  codeId, mapId  their debug ids, of those that have one
  ids            same, different, missing or no UUID
  why            why the code has no map
  debugId        of --inject: the debug id that both have now
  from           of --inject: what it is taken from (both, map, code or digest)

Examples:
  sourcemap debug-id dist/*.js
  sourcemap debug-id --inject dist/*.js";

const DIFF: &str =
    "The positions are compared at which a map has a token, and those one column after: the source and its content, the original position, the name. So after a change of a content all positions of that source differ. Where none differs, scopes are compared. Nothing is printed of maps that agree.

Keys of --json, an object:
  different     whether the maps answer differently
  line, column  the first position where they do
  places, of    at how many positions of how many they do
  member        scopes, if these alone differ

Examples:
  sourcemap diff before.js.map after.js.map
  sourcemap diff --no-contents before.js dist/app.js";

const COVERAGE: &str =
    "Lines count from 1. Node writes such files into the folder NODE_V8_COVERAGE; counts of several files add up. Functions are those that have a name; branches are the blocks of code that V8 counts by themselves; each whole function that ran is one. A code of another length than V8 saw is left out.

Keys of --json, an object a line:
  source       the source
  ran, missed  how many of its lines ran, and did not
  lines        the lines that did not: a list of first and last ones
  functions    a list of line, count, name
  branches     a list of line, count

Examples:
  NODE_V8_COVERAGE=out node app.js && sourcemap coverage out
  sourcemap coverage --lcov out > lcov.info
  sourcemap coverage --html out > coverage.html
  sourcemap coverage --check lines=80 --check functions=70 out";

const PAGE: &str =
    "The page has all in it: the code, the map, the report of `check`, and the library. It asks nothing of the network. It is made of a template: the file of --template, or of the environment variable SOURCEMAP_PAGE, or ../share/sourcemap/page.html beside the program.

Keys of --json, an object:
  output     the page
  code, map  the code and its map
  bytes      the length of the page

Examples:
  sourcemap page dist/app.js -o app.html
  sourcemap page app.min.js app.min.js.map --template page.html -o app.html";

const SIZE: &str =
    "A character, a line feed too, counts to the source that `trace` finds where it begins, or, if there is none, to [unmapped]: so each byte of a code counts once. Sources are named by their paths from the current folder; of --diff as their maps name them. A folder has the bytes of all sources below it, and [own] those of sources that are in no package. With --gzip the bytes are those of CODE.gz, which has to be there. Only their sum is exact, as each source is taken to compress equally well. The page of -o asks nothing of the network. It is made of a template: the file of --template, or of the environment variable SOURCEMAP_SIZE, or ../share/sourcemap/size.html beside the program.

Keys of --json, an object a line, the most bytes first:
  kind              source, folder, package, own or unmapped
  name              the source, folder or package
  bytes, of         its bytes, and all bytes
  old, new, change  of --diff, in place of these: its bytes in both codes, and how many more

Examples:
  sourcemap size dist/*.js
  sourcemap size --by package dist/app.js
  gzip -kf dist/app.js && sourcemap size --gzip dist/app.js
  sourcemap size dist/*.js -o size.html
  sourcemap size --diff before/app.js dist/app.js";

const COMPLETIONS: &str = "Examples:
  sourcemap completions bash > ~/.local/share/bash-completion/completions/sourcemap";

const MAN: &str = "Examples:
  sourcemap man | man -l -";

/// What is shown below the help of a command.
pub fn examples_of(command: &str) -> &'static str {
    match command {
        "trace" => TRACE,
        "resolve" => RESOLVE,
        "check" => CHECK,
        "remap" => REMAP,
        "bundle" => BUNDLE,
        "compile" => COMPILE,
        "extract" => EXTRACT,
        "embed" => EMBED,
        "strip" => STRIP,
        "inline" => INLINE,
        "external" => EXTERNAL,
        "debug-id" => DEBUG_ID,
        "diff" => DIFF,
        "coverage" => COVERAGE,
        "page" => PAGE,
        "size" => SIZE,
        "completions" => COMPLETIONS,
        "man" => MAN,
        _ => "",
    }
}
